// Telling the notation of an image by its first bytes.
ghost use Rattle.std.specs.Prelude.{◌≡◌};
ghost use Rattle.image.specs.Image.{notation_of};

use super::notation::Notation;

// A colon begins Intel HEX, an S and a decimal digit S-records. Anything else is raw bytes.
pub fn notation_of(text: &[u8]) -> Option<Notation>
    ensures { result ≡ notation_of text.now }
{
    match text {
        [b':', ..] => Some(Notation::Intel),
        [b'S', b'0'..=b'9', ..] => Some(Notation::Motorola),
        _ => None,
    }
}
