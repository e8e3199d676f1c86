//! Keywords whose values are lists or objects of schemas.
ghost use Rattle.std.specs.Prelude.{◌≡◌, List, [], true};
ghost use Rattle.serde_json.specs.Data.{Data};
ghost use Rattle.serde_json.specs.View.{items_view, members_view};
ghost use Rattle.json_values.specs.Parts.{Part};
ghost use Rattle.schema_definitions.specs.Sites.{Site};
ghost use Rattle.schema_definitions.specs.Rows.{sites_named};
ghost use Rattle.applicators.specs.Shapes.{shape_of, leads_of, sites_of_list, sites_of_map};
ghost use Rattle.applicators.specs.Combined.{is_by_answers};
ghost use Rattle.applicators.specs.Made.{patterns_in};
ghost use Rattle.applicator_reading.specs.Arms.{list_name, list_word, list_shape, map_name, map_shape, map_patterns};

use applicators::applicator::Applicator;
use applicators::asks::Asks;
use applicators::combining::Combining;
use serde_json::{Map, Value};

/// A keyword whose value is a list of schemas.
#[derive(Clone, Copy)]
pub(crate) enum ListKeyword {
    /// `items` as a list.
    ItemList,
    PrefixItems,
    AllOf,
    AnyOf,
    OneOf,
}

/// A keyword whose value is an object of schemas.
#[derive(Clone, Copy)]
pub(crate) enum MapKeyword {
    Properties,
    PatternProperties,
    DependentSchemas,
}

impl ListKeyword {
    /// What is expected where the value is no list.
    pub(crate) const fn word(self) -> &'static str
        ensures { result.now ≡ list_word self }
    {
        match self {
            ListKeyword::ItemList => "schema or list",
            _ => "list",
        }
    }

    pub(crate) const fn applied(self, schemas: &[Value]) -> Applicator<'_>
        ensures shape { (site : List Part → Data → Site)
            → shape_of site result ≡ list_shape self
            (sites_of_list site (list_name self) 0 (items_view schemas.now)) }
        ensures leads { (site : List Part → Data → Site)
            → leads_of site result ≡ sites_of_list site (list_name self) 0 (items_view schemas.now) }
        ensures patterns { patterns_in result ≡ [] }
        ensures answers { is_by_answers result ≡ true }
    {
        let (keyword, asks, combining) = match self {
            ListKeyword::ItemList => ("items", Asks::ItemByItem(schemas), Combining::Every),
            ListKeyword::PrefixItems => (
                "prefixItems",
                Asks::ItemByItem(schemas),
                Combining::Every,
            ),
            ListKeyword::AllOf => ("allOf", Asks::Branches(schemas), Combining::Every),
            ListKeyword::AnyOf => ("anyOf", Asks::Branches(schemas), Combining::SomeBranch),
            ListKeyword::OneOf => ("oneOf", Asks::Branches(schemas), Combining::OneBranch),
        };
        Applicator {
            keyword,
            asks,
            combining,
        }
    }
}

impl MapKeyword {
    pub(crate) const fn applied(self, schemas: &Map<String, Value>) -> Applicator<'_>
        ensures shape { (site : List Part → Data → Site)
            → shape_of site result ≡ map_shape self
            (sites_of_map site (map_name self) (members_view schemas.now.entries)) }
        ensures leads { (site : List Part → Data → Site)
            → leads_of site result ≡ sites_named
            (sites_of_map site (map_name self) (members_view schemas.now.entries)) }
        ensures patterns { patterns_in result ≡ map_patterns self (members_view schemas.now.entries) }
        ensures answers { is_by_answers result ≡ true }
    {
        let (keyword, asks) = match self {
            MapKeyword::Properties => ("properties", Asks::DeclaredMembers(schemas)),
            MapKeyword::PatternProperties => ("patternProperties", Asks::MatchingMembers(schemas)),
            MapKeyword::DependentSchemas => ("dependentSchemas", Asks::Triggered(schemas)),
        };
        Applicator {
            keyword,
            asks,
            combining: Combining::Every,
        }
    }
}
