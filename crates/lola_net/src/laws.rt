ghost use Rattle.std.specs.Prelude.{◌≡◌, true, List};
ghost use Rattle.lola_net.specs.declared.net.Net.{Net as WholeNet};
ghost use Rattle.lola_net.specs.declared.node.Node.{Node as NetNode};
ghost use Rattle.lola_net.specs.Run.{Sources};
ghost use Rattle.lola_net.specs.Equations.{is_ordered, HasOneCycle, IsFormed, ShowsSolutions};

/// Where each gate and pad uses only smaller nodes, the nodes' equations have one solution in a cycle: the
/// values that `cycle` goes by. So what `cycle` answers for a formed net is what any solution shows.
pub fn one_cycle()
    ensures nodes { (nodes : List NetNode) (s : Sources) → is_ordered nodes ≡ true → HasOneCycle nodes s }
    ensures shows { (net : WholeNet) → IsFormed net → ShowsSolutions net }
{}
