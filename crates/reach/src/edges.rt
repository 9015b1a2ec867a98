// An edge as one number.
ghost use Rattle.std.specs.Prelude.{◌≡◌, ◌<◌};
ghost use Rattle.reach.specs.Edges.{edge_of, from_of, to_of, depth_of, number_of};

// The edge from a node to a node, with its depth and its number.
pub fn edge(from: usize, to: usize, depth: u32, number: usize) -> u32
    requires { (from < 640) × (to < 640) × (depth < 16) × (number < 512) }
    ensures { result ≡ edge_of from to depth number }
{
    from as u32 + 640 * (to as u32) + 409600 * depth + 6553600 * (number as u32)
}

// The node that the edge goes from.
pub fn from_of(edge: u32) -> usize
    ensures { result ≡ from_of edge }
{
    (edge % 640) as usize
}

// The node that the edge goes to.
pub fn to_of(edge: u32) -> usize
    ensures { result ≡ to_of edge }
{
    (edge / 640 % 640) as usize
}

// The depth of the edge.
pub fn depth_of(edge: u32) -> u8
    ensures { result ≡ depth_of edge }
{
    (edge / 409600 % 16) as u8
}

// The number of the edge. (Edges are packed in numbers: the host lends rows of numbers, and the crates use no heap.)
pub fn number_of(edge: u32) -> u16
    ensures { result ≡ number_of edge }
{
    (edge / 6553600) as u16
}
