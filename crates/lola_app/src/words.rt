ghost use Rattle.std.specs.Prelude.{◌≡◌, List, ℕ, map, string_bytes, MatchOption};
ghost use Rattle.lola_app.specs.Serve.{Decide};

/// The names of the design and of the table, where the words are `decide` and those two.
pub fn decide_words(words: &[String]) -> Option<(&String, &String)>
    ensures { MatchOption result ((source table : List ℕ) → Decide (map string_bytes words.now) source table → ⊥) (λ names. Decide (map string_bytes words.now) (string_bytes names.0.now) (string_bytes names.1.now)) }
{
    match words {
        [command, source, table] => {
            if command.as_str() == "decide" {
                Some((source, table))
            } else {
                None
            }
        }
        _ => None,
    }
}
