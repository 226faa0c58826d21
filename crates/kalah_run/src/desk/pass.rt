//! The right to draw numbers at a desk.
use crate::desk::protocol::DeskView;
use atomic_table::Seat;
use std::marker::Model;

/// The right to draw numbers at one desk. Contracts see it as that desk's identity and total, the
/// pass's number, and the row of the numbers that it has drawn. A pass is spent once a draw of it
/// returned `None`: every later draw returns `None` too, and does not step on the desk's word.
#[derive(Drop)]
pub struct Pass {
    pub(crate) seat: Seat<(), DeskView>,
    pub(crate) is_spent: bool,
}

impl Model for Pass {
    ghost use Rattle.std.specs.Prelude.{◌≡◌, []};
    ghost use Rattle.kalah_run.specs.Desk.States.{PassState, total_in, number_in, row_in, as_pass_view};

    ghost Value = { PassState };

    ghost view = { λ p. record { desk = p.seat.table_id; total = total_in p.seat.me.0; number = number_in p.seat.me.0; row = row_in p.seat.me.0 } };

    ghost invariant = { λ p. (p.seat.me ≡ (as_pass_view p.seat.me.0, [])) × (p.is_spent ≡ (row_in p.seat.me.0).spent) };
}
