//! The response that tells busy periods.
ghost use Rattle.std.specs.Prelude.{◌≡◌, IfOk, map};
ghost use Rattle.availability_method.specs.Periods.{AreInYears, IsInYears};
ghost use Rattle.spec_availability.specs.Availability.{period_data, periods_object};
ghost use Rattle.spec_json.specs.Data.{items_of, list};
ghost use Rattle.spec_json.specs.TreeData.{data_of};

use spec_json::text::Text;
use spec_json::tree::{Tree, TreeList};
use spec_windows::period::Period;
use std::alloc::{AllocError, Global};
use time_text::utc_text;

/// The arguments of the response that tells these periods of an account.
pub(crate) fn response(
    alloc: Global,
    account: &Text,
    periods: &[Period],
) -> Result<Tree, AllocError>
    requires { AreInYears periods.now }
    ensures { IfOk result (λ t. t ≡ periods_object account.now periods.now) }
{
    let members = vec![in alloc;
        ("accountId", Tree::Text(account.copy()?)),
        ("list", period_list(alloc, periods)?),
    ]?;
    Tree::object(alloc, members)
}

fn period_list(alloc: Global, periods: &[Period]) -> Result<Tree, AllocError>
    requires { AreInYears periods.now }
    ensures { IfOk result (λ t. data_of t ≡ list (items_of (map period_data periods.now))) }
{
    let mut items = Vec::with_capacity(alloc, periods.len())?;
    for period in periods {
        items.push(period_tree(alloc, *period)?)?;
    }
    Ok(Tree::List(TreeList::new(items)))
}

fn period_tree(alloc: Global, period: Period) -> Result<Tree, AllocError>
    requires { IsInYears period }
    ensures { IfOk result (λ t. data_of t ≡ period_data period) }
{
    let members = vec![in alloc;
        ("utcEnd", Tree::Text(utc_text(alloc, period.to)?)),
        ("utcStart", Tree::Text(utc_text(alloc, period.from)?)),
    ]?;
    Tree::object(alloc, members)
}
