// A refusal in words, and as a line of its four values.
ghost use Rattle.std.specs.Prelude.{◌≡◌, IfOk, string_bytes};
ghost use Rattle.report.specs.Sentences.{refusal_sentence, refusal_values};

use policy::refusal::{Refusal, Told};
use std::alloc::{AllocError, Global};

// A plain sentence with the refusal's number.
pub fn refusal_sentence(heap: Global, refusal: Refusal) -> Result<String, AllocError>
    ensures { IfOk result (λ t. string_bytes t ≡ refusal_sentence refusal) }
{
    let number = refusal.told().number;
    format!(in heap; "Refused with number {number}: {refusal}.\n")
}

// Two lines: the names of the four values, and the values.
pub fn refusal_values(heap: Global, refusal: Refusal) -> Result<String, AllocError>
    ensures { IfOk result (λ t. string_bytes t ≡ refusal_values refusal) }
{
    let told = Told::from(refusal);
    format!(in heap; "refusal place line block\n{told}\n")
}
