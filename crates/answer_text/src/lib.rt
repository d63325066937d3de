// Short texts: a line's answer, and what is told on standard error.
#![tactic(auto)]

ghost use Rattle.std.specs.Prelude.{◌≡◌, ◌≤◌, eqb, not, length, take_while};
ghost use Rattle.rules.specs.Play.{no_move};
ghost use Rattle.text.specs.MoveText.{move_text};
ghost use Rattle.text.specs.ProgramLine.{decimal, signed, shown, status_letters, moves_text, answer_text, refusal_text};
ghost use Rattle.status.specs.Sets.{set_of};
ghost use Rattle.answer_text.specs.AnswerBytes.{no_text, added, added_all, move_bytes, text_of_bytes, written_bytes};

use boards::{Move, PLACES};
use byte_row::ByteRow;
use rules::Player;
use status::Status;

// How many moves stand before the first empty one.
fn shown_moves(line: &[Move]) -> usize
    ensures value { result ≡ length (take_while (λ m. not (eqb m.bits no_move)) line.now) }
    ensures bound { result ≤ length line.now }
{
    line.iter().take_while(|m| m.is_some()).count()
}

// The longest answer has 201 bytes. A text is made in one expression, piece after piece, so each piece takes it and gives it back.
#[derive(Clone, Copy)]
pub struct AnswerText {
    bytes: ByteRow<224>,
}

impl AnswerText {
    pub fn new() -> AnswerText
        ensures { result ≡ no_text }
    {
        AnswerText {
            bytes: ByteRow::new(),
        }
    }

    // One byte more; where there is no room it is dropped.
    #[tactic(auto, unfolding(crate::specs::AnswerBytes::added))]
    pub fn push(mut self, b: u8) -> AnswerText
        ensures { result ≡ added self b }
    {
        self.bytes.push(b);
        self
    }

    // Byte by byte in place: by `push`, each would copy the text there and back.
    #[tactic(auto, unfolding(crate::specs::AnswerBytes::added))]
    pub fn text(mut self, bytes: &[u8]) -> AnswerText
        ensures { result ≡ added_all self bytes.now }
    {
        for &b in bytes {
            self.bytes.push(b);
        }
        self
    }

    #[tactic(auto, using(crate::proofs::AnswerBytesDecimal::decimal_digits))]
    pub fn decimal(self, n: u64) -> AnswerText
        ensures { result ≡ added_all self (decimal n) }
    {
        let mut digits = [0u8; 20];
        let k = io::decimal(n, &mut digits);
        self.text(&digits[..k])
    }

    #[tactic(auto, using(crate::proofs::AnswerBytesSigned::negative_text, crate::proofs::AnswerBytesSigned::natural_text))]
    pub fn signed(self, n: i64) -> AnswerText
        ensures { result ≡ added_all self (signed n) }
    {
        let out = if n < 0 { self.push(b'-') } else { self };
        out.decimal(n.unsigned_abs())
    }

    // A letter, if it is to be shown.
    #[tactic(auto, using(crate::proofs::AnswerBytes::added_shown, crate::proofs::AnswerBytes::added_hidden))]
    fn letter(self, show: bool, b: u8) -> AnswerText
        ensures { result ≡ added_all self (shown show b) }
    {
        if show { self.push(b) } else { self }
    }

    #[tactic(auto, using(crate::proofs::AnswerBytes::added_status))]
    pub fn status(self, s: Status) -> AnswerText
        ensures { result ≡ added_all self (status_letters (set_of s)) }
    {
        self.letter(s.is_winnable(Player::X), b'X')
            .letter(s.is_winnable(Player::O), b'O')
            .letter(s.may_draw(), b'D')
    }

    pub fn move_text(self, m: Move) -> AnswerText
        ensures { result ≡ added_all self (move_text m.bits) }
    {
        let text = notation::render_move(m);
        self.text(&text)
    }

    // Moves up to the first empty one, joined; `-` if there is none.
    #[tactic(auto, using(crate::proofs::AnswerBytesMoves::none_shown, crate::proofs::AnswerBytesMoves::next_added))]
    pub fn moves(self, line: [Move; PLACES]) -> AnswerText
        ensures { result ≡ added_all self (moves_text (move_bytes line)) }
    {
        let moves = &line[..shown_moves(&line)];
        if moves.is_empty() {
            return self.push(b'-');
        }
        let mut out = self;
        for &m in moves {
            out = out.move_text(m);
        }
        out
    }

    // A line that is refused: `E` and the number.
    pub fn refused(number: u64) -> AnswerText
        ensures { result ≡ text_of_bytes (refusal_text number) }
    {
        AnswerText::new().push(b'E').push(b' ').decimal(number)
    }

    // A line that is answered.
    pub fn answer(
        status: Status,
        legal: u64,
        depth: u64,
        score: i64,
        count: u64,
        line: [Move; PLACES],
    ) -> AnswerText
        ensures { result ≡ text_of_bytes (answer_text (set_of status) legal depth score count (move_bytes line)) }
    {
        AnswerText::new()
            .status(status)
            .push(b' ')
            .decimal(legal)
            .push(b' ')
            .decimal(depth)
            .push(b' ')
            .signed(score)
            .push(b' ')
            .decimal(count)
            .push(b' ')
            .moves(line)
    }

    pub fn as_slice(&self) -> &[u8]
        ensures { result.now ≡ written_bytes self.now }
    {
        self.bytes.as_slice()
    }
}
