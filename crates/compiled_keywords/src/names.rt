//! Names that are searched by halves.
ghost use Rattle.std.specs.Prelude.{◌≡◌, map, string_bytes, true};
ghost use Rattle.schema_meaning.specs.Members.{is_listed};
ghost use Rattle.compiled_keywords.specs.Sorted.{names_rise};

/// Names in the order of their bytes, each once.
#[derive(Drop, Debug)]
pub struct SortedNames {
    /// The names.
    pub list: Vec<String>,
    pub ghost rise: { names_rise (map string_bytes list.items) ≡ true },
}

impl SortedNames {
    /// Whether a name is among them. It is compared with as many of them as their number can be halved.
    pub fn contains(&self, name: &str) -> bool
        ensures { result ≡ is_listed name.now (map string_bytes self.now.list.items) }
    {
        match self.list.binary_search_by(|one| one.as_str().cmp(name)) {
            Ok(_index) => true,
            Err(_index) => false,
        }
    }
}
