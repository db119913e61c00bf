//! What a family of four-slot cells is of.
ghost use Rattle.std.specs.Prelude.{refl};
ghost use Rattle.cell_contract.specs.declared.sight.Sight.TheVariants.{Spent};
ghost use Rattle.cell_four_slot.specs.Steps.{hears_of, receipt_for};
ghost use Rattle.family_four_slot.specs.Places.{four_slots};
ghost use Rattle.family_four_slot.specs.FourSlots.{CellRule, Idle, first_view};
ghost use Rattle.family_four_slot.specs.Tables.{Done};
ghost use Rattle.family_four_slot.specs.Cells.{cell_later, cell_tells, cell_hears, deaf, mute};
ghost use Rattle.family_four_slot.specs.Laid.{is_layout};
ghost use Rattle.family_four_slot.specs.Ends.{cell_ends};
ghost use Rattle.family_four_slot.specs.Plans.{IsPlanned, receipts_keep_plans};

use cell_contract::Planned;
use cell_four_slot::FourSlotSight;
use family_table::mechanism::Mechanism;

/// The mechanism of the registers.
pub struct FourSlotMechanism;

impl<T: Planned> Mechanism<T, FourSlotSight<T>> for FourSlotMechanism {
    ghost layout = { four_slots };

    ghost blank = { Spent };

    ghost keeps = { CellRule T.fits T.rises };

    ghost first = { first_view };

    ghost plan = { IsPlanned T.plan };

    ghost idle = { Idle };

    ghost receipt = { receipt_for };

    ghost hears = { hears_of };

    ghost done = { Done };

    ghost laid = { is_layout };

    ghost later = { λ o. cell_later T.fits T.rises o };

    ghost plain = { refl };

    ghost deaf = { deaf };

    ghost mute = { mute };

    ghost tells = { λ o. cell_tells T.fits T.rises o };

    ghost learns = { λ o. cell_hears T.fits T.rises o };

    ghost ends = { λ o. cell_ends T.fits T.rises o };

    ghost stays = { receipts_keep_plans T.plan };
}
