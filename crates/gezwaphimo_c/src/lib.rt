//! The one function of the engine that C calls, as a static library.

#![tactic(auto)]

ghost use Rattle.gezwaphimo.specs.Texts.{Answered};

use gezwaphimo::answer::answer as answer_to;

/// The answer to a text, for C: the same call as `answer` of the crate `gezwaphimo`.
#[unsafe(no_mangle)]
pub extern "C" fn gezwaphimo_answer(forms: &[u8], answer: &mut [u8]) -> i64
    ensures { Answered forms.now answer.old answer.new result }
{
    answer_to(forms, answer)
}
