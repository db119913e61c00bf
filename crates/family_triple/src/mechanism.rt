//! What a family of triple buffers is of.
ghost use Rattle.std.specs.Prelude.{refl};
ghost use Rattle.cell_contract.specs.declared.sight.Sight.TheVariants.{Spent};
ghost use Rattle.cell_triple.specs.Steps.{hears_of, receipt_for};
ghost use Rattle.family_triple.specs.Places.{triples};
ghost use Rattle.family_triple.specs.Triples.{CellRule, Any, first_view};
ghost use Rattle.family_triple.specs.Tables.{Done};
ghost use Rattle.family_triple.specs.Cells.{is_layout, cell_later, cell_tells, cell_hears, deaf, mute};
ghost use Rattle.family_triple.specs.Ends.{cell_ends};
ghost use Rattle.family_triple.specs.Keeping.{plan_heard};
ghost use Rattle.family_triple.specs.Plans.{TriplePlan};

use cell_contract::Planned;
use cell_triple::TripleSight;
use family_table::mechanism::Mechanism;

/// The mechanism of the registers.
pub struct TripleMechanism;

impl<T: Planned> Mechanism<T, TripleSight<T>> for TripleMechanism {
    ghost layout = { triples };

    ghost blank = { Spent };

    ghost keeps = { CellRule T.fits T.rises };

    ghost first = { first_view };

    ghost plan = { TriplePlan T.plan };

    ghost idle = { Any };

    ghost receipt = { receipt_for };

    ghost hears = { hears_of };

    ghost done = { Done };

    ghost laid = { is_layout };

    ghost later = { λ o. cell_later T.fits T.rises o };

    ghost plain = { refl };

    ghost deaf = { deaf };

    ghost mute = { mute };

    ghost tells = { λ o. cell_tells T.fits T.rises o };

    ghost learns = { λ o. cell_hears T.fits T.rises o };

    ghost ends = { λ o. cell_ends T.fits T.rises o };

    ghost stays = { λ o limit n i v r. plan_heard o n v r T.plan limit i };
}
