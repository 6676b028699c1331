ghost use Rattle.std.specs.Prelude.{reverse};
ghost use Rattle.lola_tree.specs.Tree.{SourceTree};
ghost use Rattle.lola_width.specs.Sized.{IsWellSized};
ghost use Rattle.lola_design.specs.Once.{AllOnce};
ghost use Rattle.lola_design.specs.Assigned.{AreAssigned};
ghost use Rattle.lola_design.specs.Drives.{PadsFit};
ghost use Rattle.lola_regular.specs.Clocked.{AreClocked};
ghost use Rattle.lola_regular.specs.Written.{IsWritten};

/// No name of a module of a well sized source is declared twice as a port or local name.
pub fn names_are_once()
    ensures { (S : SourceTree) → IsWellSized S → AllOnce (reverse S.modules) }
{}

/// Each module of a well sized source assigns each of its OUT ports, variables and registers once, drives or
/// passes on each INOUT port once, and calls each instance with as many arguments as its module has ports.
pub fn each_is_assigned()
    ensures { (S : SourceTree) → IsWellSized S → IsWritten S → AreAssigned (reverse S.modules) }
{}

/// The clocks of each module of a well sized source, as its signals and equations have them, are the one
/// clock that its faults are found with, where there is one, and no other name.
pub fn one_clock()
    ensures { (S : SourceTree) → IsWellSized S → AreClocked (reverse S.modules) }
{}

/// An INOUT port of an instance of a well sized source stands for an INOUT port of the module that calls it,
/// and what is driven is an INOUT port.
pub fn pads_are_pads()
    ensures { (S : SourceTree) → IsWellSized S → IsWritten S → PadsFit S }
{}
