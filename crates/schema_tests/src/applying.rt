// Applicators as rows name them.
use applicators::applicator::Applicator;
use applicators::asks::Asks;
use applicators::combining::Combining;
use applicators::declared::Declared;
use serde_json::{Map, Value};

fn of_list<'r>(name: &str, schemas: &'r [Value]) -> Option<Applicator<'r>> {
    match name {
        "prefixItems" => Some(Applicator {
            keyword: "prefixItems",
            asks: Asks::ItemByItem(schemas),
            combining: Combining::Every,
        }),
        "allOf" => Some(Applicator {
            keyword: "allOf",
            asks: Asks::Branches(schemas),
            combining: Combining::Every,
        }),
        "anyOf" => Some(Applicator {
            keyword: "anyOf",
            asks: Asks::Branches(schemas),
            combining: Combining::SomeBranch,
        }),
        _ => None,
    }
}

fn of_object<'r>(name: &str, schemas: &'r Map<String, Value>) -> Option<Applicator<'r>> {
    let combining = Combining::Every;
    match name {
        "properties" => Some(Applicator {
            keyword: "properties",
            asks: Asks::DeclaredMembers(schemas),
            combining,
        }),
        "dependentSchemas" => Some(Applicator {
            keyword: "dependentSchemas",
            asks: Asks::Triggered(schemas),
            combining,
        }),
        "dependencies" => Some(Applicator {
            keyword: "dependencies",
            asks: Asks::Dependencies(schemas),
            combining,
        }),
        "patternProperties" => Some(Applicator {
            keyword: "patternProperties",
            asks: Asks::MatchingMembers(schemas),
            combining,
        }),
        _ => None,
    }
}

// The schema for members that are not declared is the object that declares some, where it is one.
fn of_others<'r>(name: &str, schema: &'r Value) -> Option<Applicator<'r>> {
    let keyword = "additionalProperties";
    let names = Declared {
        names: schema.as_object(),
        patterns: None,
    };
    let patterns = Declared {
        names: None,
        patterns: schema.as_object(),
    };
    match name {
        "other properties" => Some(Applicator {
            keyword,
            asks: Asks::OtherMembers {
                declared: names,
                schema,
            },
            combining: Combining::Every,
        }),
        "unnamed properties" => Some(Applicator {
            keyword,
            asks: Asks::OtherMembers {
                declared: names,
                schema,
            },
            combining: Combining::Together,
        }),
        "unmatched properties" => Some(Applicator {
            keyword,
            asks: Asks::OtherMembers {
                declared: patterns,
                schema,
            },
            combining: Combining::Together,
        }),
        _ => None,
    }
}

fn of_choice<'r>(name: &str, schema: &'r Value) -> Option<Applicator<'r>> {
    match name {
        "not" => Some(Applicator {
            keyword: "not",
            asks: Asks::Value(schema),
            combining: Combining::Refusal,
        }),
        "if" => Some(Applicator {
            keyword: "if",
            asks: Asks::Condition {
                condition: schema,
                then_schema: None,
                else_schema: Some(schema),
            },
            combining: Combining::Conditional,
        }),
        _ => of_others(name, schema),
    }
}

fn of_schema<'r>(name: &str, schema: &'r Value) -> Option<Applicator<'r>> {
    match name {
        "items" => Some(Applicator {
            keyword: "items",
            asks: Asks::ItemsFrom { start: 1, schema },
            combining: Combining::Every,
        }),
        "contains" => Some(Applicator {
            keyword: "contains",
            asks: Asks::ItemsFrom { start: 0, schema },
            combining: Combining::Counted {
                least: None,
                most: Some(1),
            },
        }),
        "additionalProperties" => Some(Applicator {
            keyword: "additionalProperties",
            asks: Asks::Members(schema),
            combining: Combining::Together,
        }),
        "propertyNames" => Some(Applicator {
            keyword: "propertyNames",
            asks: Asks::Names(schema),
            combining: Combining::EachNamed,
        }),
        _ => of_choice(name, schema),
    }
}

// An applicator of a list, of an object or of one schema, by the keyword's name.
pub(crate) fn applied<'r>(name: &str, keyword: &'r Value) -> Option<Applicator<'r>> {
    let applied = match keyword {
        Value::Array(schemas) => of_list(name, schemas.as_slice()),
        Value::Object(schemas) => of_object(name, schemas),
        _ => None,
    };
    match applied {
        Some(applicator) => Some(applicator),
        None => of_schema(name, keyword),
    }
}
