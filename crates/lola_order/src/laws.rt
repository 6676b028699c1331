ghost use Rattle.std.specs.Prelude.{◌≡◌, ℕ, List};
ghost use Rattle.lola_order.specs.Graph.{Graph, IsOrder, IsLoop, HasLoop};
ghost use Rattle.lola_order.specs.Solutions.{HangsOnUses, IsSolution};

/// A graph has at most one order, and none where there is a closed chain; a loop is a closed chain. So
/// `order` answers an order exactly where there is no closed chain, want of memory aside.
pub fn one_order()
    ensures one { (g : Graph) (xs ys : List ℕ) → IsOrder g xs → IsOrder g ys → xs ≡ ys }
    ensures acyclic { (g : Graph) (xs : List ℕ) → IsOrder g xs → HasLoop g → ⊥ }
    ensures closed { (g : Graph) (xs : List ℕ) → IsLoop g xs → HasLoop g }
{}

/// Equations that have an order have exactly one solution for each choice of what is given, whatever type
/// of values they speak of.
pub fn one_solution<T>()
    ensures exists { (g : Graph) (f : ℕ → (ℕ → T) → T) (order : List ℕ) (base : ℕ → T) → HangsOnUses g f → IsOrder g order → (v : ℕ → T) × IsSolution g f base v }
    ensures same { (g : Graph) (f : ℕ → (ℕ → T) → T) (order : List ℕ) (base v w : ℕ → T) → HangsOnUses g f → IsOrder g order → IsSolution g f base v → IsSolution g f base w → (i : ℕ) → v i ≡ w i }
{}
