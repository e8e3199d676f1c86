//! Laws on the rows that keywords are read as: they are the contract of a function, which costs nothing to call.

ghost use Rattle.reading_laws.specs.RowLaws.{WrongKeywordsLeadNowhere, WrongRowsLeadNowhere};

/// A keyword with a cause leads nowhere, whatever stands beside it; nor does any row with a cause of those at a site.
pub fn wrong_rows_lead_nowhere()
    ensures keywords { WrongKeywordsLeadNowhere }
    ensures sites { WrongRowsLeadNowhere }
{}
