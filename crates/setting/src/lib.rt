#![tactic(auto)]
// Ranges and the closest available setting (document 01, "Controls and settings"), once over the width. What this crate
// promises to the layer above: each public function takes every input and answers what specs/Setting.antt defines. What
// those definitions mean over the integers stands in specs/Meaning.antt, and that they mean it in specs/Legal.antt,
// specs/Available.antt and specs/Closest.antt. Which sort a control is of is for the layer above to say.
ghost use Rattle.std.specs.Prelude.{◌≡◌, true, ◌%◌, ◌≤◌, ◌<◌};
ghost use Rattle.setting.specs.Setting.{span_of, bias_of, most_res, height_of, at_height, silence_of, fits_of, legal_of, whole_steps, on_grid, closest_height, closest_setting, available_of, closest_to};

// The three sorts of ranged numbers: volume (two bytes, signed), tone = bass, mid, treble (one byte, signed), delay (two
// bytes, unsigned).
#[derive(Clone, Copy)]
pub enum Sort {
    Volume,
    Tone,
    Delay,
}

// A range as on the wire: two bytes each, two's complement where the control is signed; for a one-byte control each number
// is 0 to 255.
#[derive(Clone, Copy)]
pub struct Range {
    pub min: u16,
    pub max: u16,
    pub res: u16,
}

impl Sort {
    // How many numbers a control of the sort has.
    fn span(self) -> u32
        ensures { result ≡ span_of self }
    {
        match self {
            Sort::Volume | Sort::Delay => 65536,
            Sort::Tone => 256,
        }
    }

    // How far the lowest value lies below 0.
    fn bias(self) -> u32
        ensures { result ≡ bias_of self }
    {
        match self {
            Sort::Volume => 32768,
            Sort::Tone => 128,
            Sort::Delay => 0,
        }
    }

    // What is left of a sum that has come round. Each span is a power of two, so this is the sum's low bits.
    fn around(self, sum: u32) -> u32
        ensures { result ≡ sum % span_of self }
    {
        match self {
            Sort::Volume | Sort::Delay => sum % 65536,
            Sort::Tone => sum % 256,
        }
    }

    // How far a number's value lies above the lowest value. Heights are ordered as the values are, and none is negative.
    fn height(self, number: u16) -> u32
        ensures { result ≡ height_of self number }
    {
        self.around(number as u32 + self.bias())
    }

    // The number whose value lies that high.
    fn number_at(self, height: u32) -> u16
        requires { height < 65536 }
        ensures { result ≡ at_height self height }
    {
        self.around(height + self.bias()) as u16
    }

    // The volume number −32768.
    fn silence(self, number: u16) -> bool
        ensures { result ≡ silence_of self number }
    {
        matches!(self, Sort::Volume) && number == 32768
    }

    // The largest RES that a range of the sort may have.
    fn most_res(self) -> u16
        ensures { result ≡ most_res self }
    {
        match self {
            Sort::Volume => 32767,
            Sort::Tone => 127,
            Sort::Delay => 65535,
        }
    }
}

// Whether a number is not too wide for the control.
#[tactic(auto, unfolding(crate::specs::Setting::fits_of))]
pub fn fits(sort: Sort, number: u16) -> bool
    ensures { result ≡ fits_of sort number }
{
    (number as u32) < sort.span()
}

// Whether a range is legal: no number too wide; MIN ≤ MAX; RES 1 to 32767 (127 for one byte, 65535 for delay); volume MIN
// at least −32767.
// Stays: sort and range apart, here and below: legal_of, available_of and closest_to of specs/ take the two.
#[tactic(auto, unfolding(crate::specs::Setting::legal_of))]
pub fn legal(sort: Sort, range: Range) -> bool
    ensures { result ≡ legal_of sort range }
{
    fits(sort, range.min)
        && fits(sort, range.max)
        && sort.height(range.min) <= sort.height(range.max)
        && 1 <= range.res
        && range.res <= sort.most_res()
        && !sort.silence(range.min)
}

// The length of the most whole steps that room has place for; 0 where a step is 0. A small box has no divider, so the step is
// taken off and doubled while it fits into the rest, then halved back, each doubling that still fits taken off: at most 17 times
// each way, and not once where room is shorter than a step.
fn whole_steps(room: u32, step: u32) -> u32
    requires { room < 65536 }
    ensures { result ≡ whole_steps room step }
{
    if step == 0 {
        return 0;
    }
    let mut reach = step;
    let mut rest = room;
    while reach <= rest {
        rest -= reach;
        reach *= 2;
    }
    while step <= rest {
        reach /= 2;
        while rest < reach {
            reach /= 2;
        }
        rest -= reach;
    }
    room - rest
}

// Whether x is least, or a number of steps above it, and not above most.
// Stays: least, most and step apart, here and in closest_height: so on_grid and closest_height of specs/ take them.
#[tactic(auto, unfolding(crate::specs::Setting::on_grid))]
fn on_grid(least: u32, most: u32, step: u32, x: u32) -> bool
    requires { most < 65536 }
    ensures { result ≡ on_grid least most step x }
{
    least <= x && x <= most && whole_steps(x - least, step) == x - least
}

// Whether a number is a setting: silence for volume, else MIN + k·RES up to MAX.
#[tactic(auto, unfolding(crate::specs::Setting::available_of))]
pub fn available(sort: Sort, range: Range, number: u16) -> bool
    ensures { result ≡ available_of sort range number }
{
    sort.silence(number)
        || fits(sort, number)
            && on_grid(
                sort.height(range.min),
                sort.height(range.max),
                range.res as u32,
                sort.height(number),
            )
}

// The closest to x of least, least + step, .. up to most, at a tie the lower.
fn closest_height(least: u32, most: u32, step: u32, x: u32) -> u32
    requires { (least ≤ most) × ((most < 65536) × (0 < step)) }
    ensures { result ≡ closest_height least most step x }
{
    if x <= least {
        return least;
    }
    let low = least + whole_steps(x.min(most) - least, step);
    if most - low < step {
        return low;
    }
    let high = low + step;
    if high - x < x - low { high } else { low }
}

// The closest available setting of a legal range.
#[tactic(auto, unfolding(crate::specs::Setting::closest_setting))]
fn closest_setting(sort: Sort, range: Range, wanted: u16) -> u16
    requires { legal_of sort range ≡ true }
    ensures { result ≡ closest_setting sort range wanted }
{
    let least = sort.height(range.min);
    let most = sort.height(range.max);
    let x = sort.height(wanted);
    sort.number_at(closest_height(least, most, range.res as u32, x))
}

// What is stored where a number is wanted: silence as it is; else the closest available setting, at a tie the lower. Where
// the range is illegal or the number too wide there is nothing to be closest to, and the number is given back as it is.
#[tactic(auto, unfolding(crate::specs::Setting::closest_to))]
pub fn closest(sort: Sort, range: Range, wanted: u16) -> u16
    ensures { result ≡ closest_to sort range wanted }
{
    if sort.silence(wanted) || !fits(sort, wanted) || !legal(sort, range) {
        return wanted;
    }
    closest_setting(sort, range, wanted)
}
