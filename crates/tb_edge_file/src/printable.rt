//! A path or an argument as a line of standard error shows it.
ghost use Rattle.std.specs.Prelude.{◌≡◌};
ghost use Rattle.tb_edge_file.specs.Printable.{printable, printable_char};
ghost use Rattle.tb_edge_file.specs.private.Changes.{PutsText};

use tb_records::{FrameFault, Sink, put_all};

/// The character that is shown for a character: `?` for a control character.
fn printable_char(character: char) -> char
    ensures { result ≡ printable_char character }
{
    if character.is_control() {
        '?'
    } else {
        character
    }
}

/// Writes a text, with `?` for each of its control characters.
#[tactic(auto, unfolding(crate::specs::Printable::printable))]
pub(crate) fn put_printable<E: Sink>(faults: &mut E, text: &str) -> Result<(), FrameFault>
    ensures { PutsText E.Sink result (printable text.now) faults }
{
    let mut buffer = [0; 4];
    for character in text.chars() {
        let shown = printable_char(character).encode_utf8(&mut buffer);
        put_all(faults, shown.as_bytes())?;
    }
    Ok(())
}
