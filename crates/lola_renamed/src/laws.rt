ghost use Rattle.std.specs.Prelude.{◌≡◌, ℕ, List, Some};
ghost use Rattle.lola_tree.specs.declared.named.Ref.{Ref};
ghost use Rattle.lola_tree.specs.Tree.{Tree};
ghost use Rattle.lola_tree.specs.Width.{Scope, width};
ghost use Rattle.lola_tree.specs.Value.{value};
ghost use Rattle.lola_flat.specs.Value.{Env};
ghost use Rattle.lola_flat.specs.Value as flat;
ghost use Rattle.lola_renamed.specs.Renamed.{Meant, renamed};
ghost use Rattle.lola_renamed.specs.Reads.{FitsIn, Among, AreRead, AreIndexed, Widens, Reads, AreInside};

/// Where names stand for expressions of their widths, an expression over signals has the width of the one over names;
/// and where they stand for what they are, and each array is read within it, its value.
pub fn renamed_means()
    ensures fits { (scope : Scope) (names : Meant) (W : Env ℕ) (vectors arrays : List Ref) → Widens scope names W (Among vectors) (Among arrays) → (e : Tree) → AreRead scope (Among vectors) e → AreIndexed (Among arrays) e → (w : ℕ) → width scope e ≡ Some w → FitsIn W (renamed names e) w }
    ensures value { (scope : Scope) (names : Meant) (W N : Env ℕ) (vectors arrays : List Ref) (read : Ref → ℕ → ℕ) → Widens scope names W (Among vectors) (Among arrays) → Reads scope names W N (Among vectors) (Among arrays) read →
        (e : Tree) → AreRead scope (Among vectors) e → AreIndexed (Among arrays) e → AreInside scope e read → (w : ℕ) → width scope e ≡ Some w → flat.value W N (renamed names e) ≡ value scope e read }
{}
