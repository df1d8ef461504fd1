//! How a flaw of a file is said: by its name and its numbers. Definitions: `specs/Damage.antt`.

ghost use Rattle.std.specs.Prelude.{◌≡◌, ◌++◌, IfOk};
ghost use Rattle.std.specs.Fmt.{decimal};
ghost use Rattle.std.specs.Option.{option_copied};
ghost use Rattle.refusals.specs.Damage.{flaw_text, numbers_text};

use byte_view::{Flaw, Told, flaw_name, numbers_told};
use load_model::Text;
use path_text::NoMemory;
use std::alloc::Global;

/// The name of a flaw and its numbers, each after a space; of a flaw without a name its own number
/// alone.
#[tactic(auto, unfolding(crate::specs::Damage::flaw_text))]
pub fn flaw_text(alloc: Global, flaw: &Flaw) -> Result<Text, NoMemory>
    ensures { IfOk result (λ text. text ≡ flaw_text flaw.now) }
{
    let Some(name) = flaw_name(flaw.code) else {
        return decimal_text(alloc, u64::from(flaw.code));
    };
    let numbers = numbers_text(alloc, flaw)?;
    let mut text = Vec::from_slice(alloc, name)?;
    text.extend_from_slice(numbers.as_bytes())?;
    Ok(Text::from_vec(text))
}

fn decimal_text(alloc: Global, number: u64) -> Result<Text, NoMemory>
    ensures { IfOk result (λ text. text ≡ decimal number) }
{
    let text = format!(in alloc; "{number}")?;
    Text::from_bytes(alloc, text.as_bytes())
}

/// The numbers that a flaw tells, each after a space.
fn numbers_text(alloc: Global, flaw: &Flaw) -> Result<Text, NoMemory>
    ensures { IfOk result (λ text. text ≡ numbers_text flaw.now) }
{
    let Flaw { code, a, b } = *flaw;
    let text = match numbers_told(code) {
        Told::Nothing => return Text::from_bytes(alloc, b""),
        Told::One => format!(in alloc; " {a}")?,
        Told::Two => format!(in alloc; " {a} {b}")?,
    };
    Text::from_bytes(alloc, text.as_bytes())
}
