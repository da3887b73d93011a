//! Laws of the definitions. Each is the contract of a function that does nothing.

ghost use Rattle.std.specs.Prelude.{◌≡◌, ◌↔◌, ◌<◌, ◌^◌, ℕ, List, Some, Ok, Err, decimal};
ghost use Rattle.hf_text.specs.Words.{Command, Reads, IsUsageAt, command_read, number_of};

/// A number is read from exactly the word that is written for it.
pub fn numbers_are_their_words()
    ensures { (word : List ℕ) (n : ℕ) → (number_of word ≡ Some n) ↔ ((n < 256 ^ 4) × (word ≡ decimal n)) }
{}

/// Words are a command exactly where reading them gives it, so they are at most one.
pub fn words_are_one_command()
    ensures { (words : List (List ℕ)) (command : Command) → Reads words command ↔ (command_read words ≡ Ok command) }
{}

/// Reading fails exactly where no command reads, at the one place where the words stop to be the
/// first words of a command.
pub fn usage_is_at_one_place()
    ensures { (words : List (List ℕ)) (at : ℕ) → (command_read words ≡ Err at)
        ↔ (((command : Command) → ¬ Reads words command) × IsUsageAt words at) }
{}
