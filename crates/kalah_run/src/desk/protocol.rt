//! The protocol under which the desk's word is kept, and what each step on it returns.
ghost use Rattle.kalah_run.specs.{Desk.Protocol.{IsLawful, opening_view, after_handing_out, pass_handed_out, Draws, DrawsRest, StartsClosing, after_reclaiming}, declared.desk.protocol.DeskView.TheVariants.{Reclaimed}};

use atomic_table::{Join, Play, Split, TableRule};
use std::collections::LinkedList;

/// The numbers that one pass has drawn, in the order drawn, and whether the pass is spent.
/// It is used in contracts only; no program makes one.
pub struct DrawnRow {
    pub numbers: LinkedList<u32>,
    pub spent: bool,
}

/// What one seat at the desk's table knows. It is used in contracts only; no program makes one.
pub enum DeskView {
    /// The seat that hands out the passes: how many it has handed out, and how many are left.
    Opening {
        total: u32,
        handed_out: u32,
        left: u32,
    },
    /// The seat of a pass.
    Drawing {
        total: u32,
        number: u32,
        row: DrawnRow,
    },
    /// The seat that reclaims the passes: the rows of those that it has reclaimed.
    Closing(LinkedList<DrawnRow>),
    /// The seat of a pass that was reclaimed.
    Reclaimed,
}

/// The plan with which the desk is opened: numbers below `total`, for `passes` passes.
#[derive(Drop)]
pub struct DeskPlan {
    pub total: u32,
    pub passes: u32,
}

/// The protocol: between any two steps the rows of all passes are lawful, and the word counts the
/// numbers drawn and the spent passes.
pub struct DeskProtocol;

impl TableRule<(), DeskView, DeskPlan> for DeskProtocol {
    ghost holds = { IsLawful };

    ghost first = { opening_view };
}

/// The next pass is handed out.
pub struct HandOut;

impl Split<DeskView> for HandOut {
    ghost left = { after_handing_out };

    ghost right = { pass_handed_out };
}

/// A pass draws.
pub struct DrawNumber;

impl Play<(), DeskView> for DrawNumber {
    ghost then = { Draws };
}

/// A pass draws all that is left.
pub struct DrawRest;

impl Play<(), DeskView> for DrawRest {
    ghost then = { DrawsRest };
}

/// A new seat comes to reclaim the passes.
pub struct StartClosing;

impl Play<(), DeskView> for StartClosing {
    ghost then = { StartsClosing };
}

/// A pass is reclaimed.
pub struct Reclaim;

impl Join<DeskView> for Reclaim {
    ghost both = { after_reclaiming };

    ghost spent = { Reclaimed };
}
