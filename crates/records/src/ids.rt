// The ids of a circuit's lines: they only rise, from 1 up to 4,294,967,295; a not record may hold 0.
ghost use Rattle.std.specs.Prelude.{◌≡◌};
ghost use Rattle.tables.specs.Ids.{follows as follows_by};

// The largest id.
const MOST: u64 = 4294967295;

// d may be the id of a line as written; last is the last id before it that is not 0, or 0 where there is none.
pub fn follows(last: u64, d: u64) -> bool
    ensures { result ≡ follows_by last d }
{
    last < d && d <= MOST
}
