// The set of the results that are left: X wins, O wins, draw.
// Ported from src/lib/prove.rs of nelhage/ultimattt at commit 87ef0d9c7c (Apache-2.0, see NOTICE), changed: `Status` only.
#![tactic(auto)]

ghost use Rattle.std.specs.Prelude.{◌≡◌, eqb, option_map};
ghost use Rattle.std.specs.Int.Bits.{bit_and};
ghost use Rattle.rules.specs.Status.{unproven, for_player, draw_or_other, allows, from_byte};
ghost use Rattle.status.specs.Sets.{set_of, only_draw, status_of, won_byte};

use rules::Player;

const MAYBE_X: u8 = 0b0001;

const MAYBE_O: u8 = 0b0010;

const MAYBE_DRAW: u8 = 0b0100;

#[derive(Clone, Copy, PartialEq, Eq)]
pub struct Status {
    pub bits: u8,
}

impl Status {
    pub const UNPROVEN: Status = Status {
        bits: MAYBE_X | MAYBE_O | MAYBE_DRAW,
    };

    // Nothing is proved: the full set.
    pub fn unproven() -> Status
        ensures { result ≡ status_of unproven }
    {
        Status::UNPROVEN
    }

    pub fn x() -> Status
        ensures { result ≡ status_of (for_player Player.X) }
    {
        Status { bits: MAYBE_X }
    }

    pub fn o() -> Status
        ensures { result ≡ status_of (for_player Player.O) }
    {
        Status { bits: MAYBE_O }
    }

    pub fn draw() -> Status
        ensures { result ≡ status_of only_draw }
    {
        Status { bits: MAYBE_DRAW }
    }

    pub fn draw_or_x() -> Status
        ensures { result ≡ status_of (draw_or_other Player.O) }
    {
        Status {
            bits: MAYBE_DRAW | MAYBE_X,
        }
    }

    pub fn draw_or_o() -> Status
        ensures { result ≡ status_of (draw_or_other Player.X) }
    {
        Status {
            bits: MAYBE_DRAW | MAYBE_O,
        }
    }

    pub fn for_player(player: Player) -> Status
        ensures { result ≡ status_of (for_player player) }
    {
        match player {
            Player::X => Status::x(),
            Player::O => Status::o(),
        }
    }

    // Not 0, where none is left, and not 3, either side but no draw.
    #[tactic(auto, using(crate::proofs::Sets::over_7_is_nothing, crate::proofs::Sets::no_set, crate::proofs::Sets::byte_is_set))]
    pub fn from_byte(v: u8) -> Option<Status>
        ensures { result ≡ option_map status_of (from_byte v) }
    {
        match v {
            1 | 2 | 4..=7 => Some(Status { bits: v }),
            _ => None,
        }
    }

    pub fn as_byte(self) -> u8
        ensures { result ≡ self.bits }
    {
        self.bits
    }

    // The common part, or nothing.
    pub fn merge(self, other: Status) -> Option<Status>
        ensures { result ≡ option_map status_of (from_byte (bit_and self.bits other.bits)) }
    {
        Status::from_byte(self.bits & other.bits)
    }

    #[tactic(auto, using(crate::proofs::Sets::lowest_bit_test, crate::proofs::Sets::next_bit_test))]
    pub fn is_winnable(self, who: Player) -> bool
        ensures { result ≡ allows (set_of self) who }
    {
        match who {
            Player::X => self.bits & MAYBE_X != 0,
            Player::O => self.bits & MAYBE_O != 0,
        }
    }

    #[tactic(auto, using(crate::proofs::Sets::draw_bit_test))]
    pub fn may_draw(self) -> bool
        ensures { result ≡ (set_of self).draw }
    {
        self.bits & MAYBE_DRAW != 0
    }

    pub fn is_won(self, who: Player) -> bool
        ensures { result ≡ eqb self.bits (won_byte who) }
    {
        match who {
            Player::X => self.bits == MAYBE_X,
            Player::O => self.bits == MAYBE_O,
        }
    }
}
