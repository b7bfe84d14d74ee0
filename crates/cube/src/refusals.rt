// Why a question is refused: the table of refusals (RULES, Refusal numbers), each with its number.
ghost use Rattle.std.specs.Prelude.{◌≡◌};
ghost use Rattle.cube.specs.Refused.{number};

#[derive(Clone, Copy, PartialEq, Eq)]
pub enum Refusal {
    Dimension = 1, // the dimension is not 1 to 12; for the tally not 1 to 4
    Length = 2, // something lent has not its length
    Unused = 3, // a table of nodes has a bit set that stands for no node
    Label = 4, // a label above the highest
    Node = 5, // a node that the cube has not
    Source = 6, // the source, or the current node, is faulty or drains
    Destination = 7, // the walk's destination is faulty
    Hops = 8, // the walk needs more than n + 4 hops
    Cut = 9, // the bytes end before a number that is due is complete
    Group = 10, // a number's second group is zero or has its high bit set
    Count = 11, // more faulty nodes than the cube has
    Address = 12, // a node to be written into a table is none of the cube
    Room = 13, // what is to be written is longer than the buffer
    Text = 14, // a list text breaks its rules
    Board = 15, // no such board, or it has not the message's network and direction
    Network = 16, // the next hop would need a network that the board lacks
    Mask = 17, // a mask with a bit at n or above
    Rule = 18, // the rule is not 2 or 3
    Job = 19, // the job is not 0 or 1
}

impl From<Refusal> for u32 {
    ghost from_gives = { λ r k. k ≡ number r };

    fn from(refusal: Refusal) -> u32 {
        refusal as u32
    }
}
