//! Of the questions of an applicator, paths lead to one at most.
ghost use Rattle.std.specs.Prelude.{◌≡◌, ◌<◌, ◌^◌, length, true};
ghost use Rattle.serde_json.specs.View.{view, members_view};
ghost use Rattle.json_values.specs.Rising.{are_rising};
ghost use Rattle.fault_paths.specs.Laws.{NamesRiseIn, BranchesFitIn, MembersRise, OneAhead};

use crate::items::indexes_fit;
use applicators::applicator::Applicator;
use applicators::asks::Asks;
use serde_json::Value;
use value_checks::rising::entries_rise;

fn list_fits(schemas: &[Value])
    ensures { length schemas.now < 2 ^ 64 }
{
    let _count = schemas.len();
}

// The schemas that are asked are in memory.
fn schemas_stand(asks: Asks<'_>)
    ensures names { NamesRiseIn asks.entry }
    ensures branches { BranchesFitIn asks.entry }
{
    match asks {
        Asks::DeclaredMembers(schemas) => entries_rise(schemas),
        Asks::MatchingMembers(schemas) => entries_rise(schemas),
        Asks::Triggered(schemas) => entries_rise(schemas),
        Asks::Dependencies(entries) => entries_rise(entries),
        Asks::Branches(schemas) => list_fits(schemas),
        _ => {}
    }
}

fn members_rise(value: &Value)
    ensures { MembersRise (view value.now) }
{
    if let Value::Object(members) = value {
        entries_rise(members);
    }
}

/// Two paths lead to one question of an applicator at most, where its verdict is by how many answers are yes. It does nothing.
pub fn one_ahead(applicator: &Applicator<'_>, value: &Value)
    ensures { OneAhead applicator.now (view value.now) }
{
    schemas_stand(applicator.asks());
    indexes_fit(value);
    members_rise(value);
}
