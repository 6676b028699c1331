ghost use Rattle.std.specs.Prelude.{◌≡◌, Some};
ghost use Rattle.lola_net.specs.declared.net.Net.{Net as TheNet};
ghost use Rattle.lola_flat.specs.Tree.{FlatTree};
ghost use Rattle.lola_flat.specs.Formed.{IsFormed};
ghost use Rattle.lola_lower.specs.Steps.{net_of};
ghost use Rattle.lola_lower.specs.Cycles.{HasCycles};
ghost use Rattle.lola_lower.specs.Named.{IsIdentifier, HasIdentifiers, HasBitNames};
ghost use Rattle.lola_lower.specs.Standing.{StandsAsMade};

/// The net of a well formed flat design has the design's cycles: in the bits of what a cycle is given, it shows the
/// bits of the outputs and of the pads in that cycle, and of the registers behind it.
pub fn lowered_cycles()
    ensures { (F : FlatTree) (net : TheNet) → IsFormed F → net_of F ≡ Some net → HasCycles F net }
{}

/// Where the names of its signals' paths are identifiers, the names of the net of a well formed flat design stand as
/// those of a net are to stand: each names a bit of one signal, vectors stand whole, inputs, outputs and pads are
/// ports, and no name comes twice.
pub fn lowered_names()
    ensures { (F : FlatTree) (net : TheNet) → IsFormed F → HasIdentifiers F → net_of F ≡ Some net → HasBitNames net }
{}

/// Where the names of the design and of its signals' paths are identifiers, that net stands so that it can be made again
/// from what its text says: its ports are inputs, outputs, pads and the clock, inputs and outputs in the order of the
/// ports, its nodes are inputs, then latches, then gates and pads, and each gate is what `and` makes of its literals
/// behind the nodes before it.
pub fn lowered_stands()
    ensures { (F : FlatTree) (net : TheNet) → IsFormed F → HasIdentifiers F → IsIdentifier F.root → net_of F ≡ Some net → StandsAsMade net }
{}
