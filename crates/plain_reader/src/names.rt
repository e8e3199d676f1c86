//! Whether a schema accepts the names of members.
ghost use Rattle.std.specs.Prelude.{IfOk, IfErr};
ghost use Rattle.plain_reader.specs.Readings.{HasPlaceOf, NameAccepts};
ghost use Rattle.plain_reader.specs.Returns.{Stops};
ghost use Rattle.plain_reader.specs.Returning.{NameReturns};

use crate::standing::Reading;
use crate::stop::Stop;
use crate::whole::accepts_alone;
use serde_json::Value;

// Whether a schema accepts a name, as a text of its own where the object stands: no reference is in progress there.
#[cycle(read)]
pub(crate) fn accepts_name(reading: &Reading<'_, '_, '_>, name: &str) -> Result<bool, Stop>
    requires named { HasPlaceOf reading.now name.now }
    ensures accepts { IfOk result (NameAccepts reading.now name.now) }
    ensures stops { IfErr result (Stops (NameReturns reading.now name.now)) }
{
    let alloc = reading.alloc;
    let text = Value::String(String::from_str(alloc, name)?);
    accepts_alone(alloc, reading.site, &text, reading.at)
}
