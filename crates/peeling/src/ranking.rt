// From the values, and the edges noted where they land, to the rank entries and to the order of the edges by line.
ghost use Rattle.std.specs.Prelude.{◌<◌, length};
ghost use Rattle.peeling.specs.Ranking.{Placed, RankedTo};

// A rank entry stands for each block of so many vertices. `records::offsets::BLOCK` is the same number: no crate with code stands below both.
pub const BLOCK: usize = 64;

// Counts the assigned vertices in their order. So many stand below the first vertex of a block, which is its rank entry, and below an assigned vertex, which is the line of the edge noted there.
#[tactic(auto, using(crate::proofs::RankingSteps::assigned_most))]
pub fn rank_vertices(r: usize, values: &[u8], landed: &[u32], rank: &mut [u16], keys: &mut [u16])
    requires { Placed r values.now landed.now rank.old keys.old }
    ensures { RankedTo (length values.now) r values.now landed.now rank.new keys.new }
{
    let mut count = 0;
    for (x, value) in values.iter().enumerate() {
        if x % BLOCK == 0 {
            rank[x / BLOCK] = count as u16;
        }
        if *value as usize != r {
            keys[count] = landed[x] as u16;
            count += 1;
        }
    }
}
