//! Whether a schema accepts an instance, from where it stands on.
ghost use Rattle.std.specs.Prelude.{◌≤◌, IfOk, IfErr};
ghost use Rattle.serde_json.specs.Data.{depth};
ghost use Rattle.serde_json.specs.View.{view};
ghost use Rattle.schema_definitions.specs.Plain.{deepest};
ghost use Rattle.schema_sites.specs.Seen.{documents_at};
ghost use Rattle.plain_reader.specs.Sites.{SiteAccepts, SiteReturns};
ghost use Rattle.plain_reader.specs.Returns.{Stops};

use crate::stop::Stop;
use crate::whole::accepts_alone;
use schema_reports::LazyLocation;
use schema_sites::site::Site;
use serde_json::Value;
use std::alloc::Global;

/// Whether the schema at a site accepts an instance, as if a root were there, where every schema reached from it is read. A reference that
/// comes back to its target at one place of the instance ends the reading without a verdict. The matches of patterns are the site's.
///
/// It stops at the first keyword that refuses, and at the first answers that settle a keyword. Each keyword that asks walks the part of
/// the instance that it applies to once, and each reference is looked up once for each value that it is asked of, and compared with those
/// in progress.
///
/// # Errors
///
/// Where memory was refused or a count of owners is full, and where a reference that was asked came back.
pub fn accepts_site(alloc: Global, site: &Site<'_>, value: &Value) -> Result<bool, Stop>
    requires shallow { depth (view site.now.contents.now) ≤ deepest (documents_at site.now) }
    ensures accepts { IfOk result (SiteAccepts site.now (view value.now)) }
    ensures stops { IfErr result (Stops (SiteReturns site.now (view value.now))) }
{
    let instance = LazyLocation::new();
    accepts_alone(alloc, site, value, &instance)
}
