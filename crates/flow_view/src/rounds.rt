//! Parts of a length, and round numbers for the axes of charts.
ghost use Rattle.std.specs.Prelude.{◌≡◌, ◌≤◌, ◌<◌, ◌*◌, IfSome};
ghost use Rattle.flow_view.specs.Scale.{share, first_reaching, count_between, minutes_between};
ghost use Rattle.flow_slots.specs.declared.shape.TheConstants.{LONGEST_PERIOD};

/// The greatest number of lines above the lowest one of a panel.
const MOST_LINES: u32 = 5;

/// The greatest count that is shown.
pub const MOST_FLIGHTS: u32 = 50_000;

/// The numbers of flights that may be between two lines.
const ROUND_COUNTS: [u32; 13] = [1, 2, 5, 10, 20, 50, 100, 200, 500, 1000, 2000, 5000, 10_000];

/// The least distance between two labels, in tenths of a pixel.
const LABEL_WIDTH: u32 = 560;

/// The width of a panel of a chart, in tenths of a pixel.
pub const PANEL_WIDTH: u32 = 7120;

/// The numbers of minutes that may be between two labels. Each divides the day.
const ROUND_TIMES: [u32; 11] = [1, 2, 5, 10, 15, 20, 30, 60, 120, 180, 240];

/// The share of a length that a part is of a whole, rounded down; all of it if the part is greater.
pub fn share(length: u32, part: u32, whole: u32) -> u32
    requires { 0 < whole }
    ensures value { result ≡ share length part whole }
    ensures most { result ≤ length }
{
    let product = u64::from(length) * u64::from(part.min(whole));
    (product / u64::from(whole)) as u32
}

/// The first of these numbers that `times` times reaches `wanted`.
fn first_reaching(numbers: &[u32], times: u32, wanted: u32) -> Option<u32>
    ensures first { result ≡ first_reaching times wanted numbers.now }
    ensures reaches { IfSome result (λ n. wanted ≤ times * n) }
{
    let (times, wanted) = (u64::from(times), u64::from(wanted));
    numbers
        .iter()
        .copied()
        .find(|number| wanted <= times * u64::from(*number))
}

/// The number of flights between two lines of a panel: the least round number with at most 5 lines
/// up to a count.
#[tactic(auto, unfolding(crate::specs::Scale::count_between))]
pub fn count_between(greatest: u32) -> u32
    requires { greatest ≤ MOST_FLIGHTS }
    ensures value { result ≡ count_between greatest }
    ensures few { greatest ≤ MOST_LINES * result }
    ensures some { 0 < result }
    ensures round { result ≤ 10_000 }
{
    first_reaching(&ROUND_COUNTS, MOST_LINES, greatest).unwrap_or(10_000)
}

/// The number of minutes between two labels: the least round number that is as wide as a label in a
/// panel of `minutes` minutes.
#[tactic(auto, unfolding(crate::specs::Scale::minutes_between))]
pub fn minutes_between(minutes: u32) -> u32
    requires { minutes ≤ LONGEST_PERIOD }
    ensures value { result ≡ minutes_between minutes }
    ensures apart { LABEL_WIDTH * minutes ≤ PANEL_WIDTH * result }
    ensures some { 0 < result }
    ensures most { result ≤ 240 }
{
    first_reaching(&ROUND_TIMES, PANEL_WIDTH, LABEL_WIDTH * minutes).unwrap_or(240)
}
