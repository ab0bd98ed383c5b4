// The segment that is being made.
ghost use Rattle.std.specs.Prelude.{◌≡◌};
ghost use Rattle.rules.specs.Segments.{of_length, against, not_against, grow};
ghost use Rattle.rules.specs.Overheads.{toward};
ghost use Rattle.rules.specs.Structs.{Short, direction_of, opposite_to, segment_of, heading_of, steps_of, grown_of};

#[derive(Clone, Copy, PartialEq, Eq)]
pub enum Direction {
    Low,
    High,
}

// A paid segment has a direction once it has made a step.
#[derive(Clone, Copy)]
pub enum Segment {
    Fresh,
    Running(Direction, usize),
    Paid,
    PaidToward(Direction),
}

// The move that steps in a direction.
pub fn move_toward(direction: Direction) -> usize
    ensures { result ≡ toward (direction_of direction) }
{
    match direction {
        Direction::Low => 0,
        Direction::High => 1,
    }
}

// The other direction.
pub fn opposite(direction: Direction) -> Direction
    ensures { result ≡ opposite_to direction }
{
    match direction {
        Direction::Low => Direction::High,
        Direction::High => Direction::Low,
    }
}

// Length M or more is paid and keeps its direction.
pub fn of_length(least: usize, direction: Direction, length: usize) -> Segment
    ensures { segment_of result ≡ of_length least (direction_of direction) length }
{
    if least <= length {
        Segment::PaidToward(direction)
    } else {
        Segment::Running(direction, length)
    }
}

// Where a segment that owes is lengthened first: in its direction, a fresh one high.
pub fn heading_of(segment: Segment) -> Direction
    ensures { direction_of result ≡ heading_of (segment_of segment) }
{
    match segment {
        Segment::Fresh => Direction::High,
        Segment::Running(toward, _length) => toward,
        Segment::Paid => Direction::High,
        Segment::PaidToward(toward) => toward,
    }
}

// How many steps its first vertex lies back.
pub fn steps_of(segment: Segment) -> usize
    ensures { result ≡ steps_of (segment_of segment) }
{
    match segment {
        Segment::Fresh => 0,
        Segment::Running(_toward, length) => length,
        Segment::Paid => 0,
        Segment::PaidToward(_toward) => 0,
    }
}

// Whether a direction is against another.
pub fn against(was: Direction, now: Direction) -> bool
    ensures { result ≡ against (direction_of was) (direction_of now) }
{
    was != now
}

// No step goes back against the one before it.
fn not_against(was: Direction, now: Direction, segment: Segment) -> Option<Segment>
    ensures { grown_of result ≡ not_against (direction_of was) (direction_of now) (segment_of segment) }
{
    if against(was, now) {
        None
    } else {
        Some(segment)
    }
}

// What a step makes of a segment, unless it would go back.
// Running, a step adds 1 to the length. A join starts paid with no direction; its first step gives one.
pub fn grow(least: usize, direction: Direction, segment: Segment) -> Option<Segment>
    requires { Short segment }
    ensures { grown_of result ≡ grow least (direction_of direction) (segment_of segment) }
{
    match segment {
        Segment::Fresh => Some(of_length(least, direction, 1)),
        Segment::Running(was, length) => {
            not_against(was, direction, of_length(least, direction, length + 1))
        }
        Segment::Paid => Some(Segment::PaidToward(direction)),
        Segment::PaidToward(was) => not_against(was, direction, Segment::PaidToward(direction)),
    }
}
