//! Laws that fix the definition of a line: what it asks for is what it is spelled as. Nothing here is run.

ghost use Rattle.cil_server.specs.Laws.{AskedAsSpelled, ReadAsWritten};

/// A line asks for a request, for the end of the session or for too long a body exactly where it is spelled so; every
/// other line asks for nothing that is known.
pub fn asked_as_spelled()
    ensures { AskedAsSpelled }
{}

/// Below 2^64, the decimal of a number in a line is the one that a reply writes.
pub fn read_as_written()
    ensures { ReadAsWritten }
{}
