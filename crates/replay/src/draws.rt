// A draw winner as a record has it.
ghost use Rattle.std.specs.Prelude.{◌≡◌};
ghost use Rattle.replay.specs.Draws.{draw_letter, draw_of};

use rules::Player;

fn draw_letter(b: u8) -> Option<Option<Player>>
    ensures { result ≡ draw_letter b }
{
    match b {
        b'-' => Some(None),
        b'X' => Some(Some(Player::X)),
        b'O' => Some(Some(Player::O)),
        _ => None,
    }
}

// X, O, or - for none.
pub fn draw_of(text: &[u8]) -> Option<Option<Player>>
    ensures { result ≡ draw_of text.now }
{
    let [b] = text else {
        return None;
    };
    draw_letter(*b)
}
