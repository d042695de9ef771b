// Who a member's page names, and how they stand: the unit of the member's row, or the residual past the last row.
ghost use Rattle.std.specs.Prelude.{◌≡◌};
ghost use Rattle.interval.specs.Lent.{Lent, lent_member};
ghost use Rattle.answer.specs.Asked.{no_lists};
ghost use Rattle.answer.specs.Worked.{required};
ghost use Rattle.panel.specs.Past.{RosterFine};
ghost use Rattle.panel.specs.Who.{by_row, NamedAt};

use super::Shown;
use super::members::row_of;
use answer::Row;
use answer::roster::member;
use book::RequirementFields;
use interval::Tally;
use pages::Who;
use rules::Standing;

#[derive(Clone, Copy)]
pub(crate) struct Named {
    pub(crate) who: Who,
    pub(crate) standing: Standing,
}

fn by_row(row: Row, residual: Standing) -> Named
    ensures { result ≡ by_row row residual }
{
    match row {
        Row::Unit(number, standing) => Named {
            who: Who::Unit(number),
            standing: standing,
        },
        Row::Other => Named {
            who: Who::Residual,
            standing: residual,
        },
        Row::Refused(_) => Named {
            who: Who::Residual,
            standing: residual,
        },
    }
}

// Who member k is, from 0.
pub(crate) fn member_at(
    k: u32,
    tally: Tally,
    fields: RequirementFields,
    shown: Shown,
    figures: &[i64],
    numbers: &[u16],
    homes: &[u8],
) -> Named
    requires { RosterFine tally fields.set (lent_member no_lists figures.now numbers.now homes.now) }
    ensures { (rest : Lent) → NamedAt tally.units (lent_member rest figures.now numbers.now homes.now)
        (required fields) shown k result }
{
    let units = tally.units as usize;
    let residual = shown.residual;
    let row = row_of(k, fields.set, units, homes);
    if row == units {
        return Named {
            who: Who::Residual,
            standing: residual,
        };
    }
    let direction = fields.direction;
    by_row(
        member(
            tally, row as u16, direction, fields.set, figures, numbers, homes,
        ),
        residual,
    )
}
