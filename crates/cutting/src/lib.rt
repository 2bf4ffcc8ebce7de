#![tactic(auto)]
// Layer 1, cutting. What it promises to the layer above: a configuration is refused by the rules 1 to 9 of document 01 and by 17 of document
// 02, with number and place, exactly where it breaks one of them; or it is surveyed: the AudioControl number, where the header stands, how many
// entities there are, where each stands, its ID, whether it may be a source, and where its own source IDs stand.
ghost use Rattle.std.specs.Prelude.{◌≡◌, ◌+◌};
ghost use Rattle.ground.specs.Numbers.{byte};
ghost use Rattle.ground.specs.Told.{told, kept_or};
ghost use Rattle.scan.specs.Search.{searched};
ghost use Rattle.layout.specs.Withdrawn.{is_wrong};
ghost use Rattle.cutting.specs.Survey.{unlaid_refused, run_refused, run_survey, verdict, survey_of};

use entities::Run;
use ground::{Refusal, refuse_at, refuse_unless};
use groups::Frame;

// What stands in a configuration that these rules do not refuse.
#[derive(Clone, Copy)]
pub struct Survey {
    pub control: u8,
    pub header: usize,
    pub run: Run,
}

// The first descriptor from a place on whose layout is wrong.
fn wrong_layout(s: &[u8], from: usize) -> Option<usize>
    ensures { result ≡ searched (λ b d. is_wrong d) s.now from }
{
    scan::descriptors_from(s, from)
        .find(|(_, d)| layout::is_wrong(d))
        .map(|(at, _)| at)
}

// Rules 9 and 17 of the descriptors from a place on, of which some have none of the layouts, if any: the first of them. Only then are the
// two told apart, by another look at each.
fn judge_layouts(s: &[u8], from: usize, unlaid: Option<usize>) -> Result<(), Refusal>
    ensures { result ≡ kept_or (unlaid_refused s.now from unlaid) }
{
    if let None = unlaid {
        return Ok(());
    }
    refuse_at(9, wrong_layout(s, from))?;
    refuse_at(17, unlaid)
}

// Rules 8, 9 and 17 of a run from a place on, count descriptors long, behind the header.
fn judge_run(
    s: &[u8],
    from: usize,
    count: usize,
    unlaid: Option<usize>,
    header: usize,
) -> Result<(), Refusal>
    ensures { result ≡ kept_or (run_refused s.now from count unlaid header) }
{
    refuse_unless(1 <= count && count <= entities::MOST_ENTITIES, 8, header)?;
    judge_layouts(s, from, unlaid)
}

// The survey of a configuration that keeps the rules 1 to 7.
fn survey_run(config: &[u8], f: Frame) -> Result<Survey, Refusal>
    ensures { result ≡ run_survey config.now f }
{
    let s = scan::stretch(config, 0, f.end);
    let walk = entities::read_run(s, f.run);
    judge_run(s, f.run, walk.run.count, walk.unlaid, f.header)?;
    Ok(Survey {
        control: number_of(config, f.control),
        header: f.header,
        run: walk.run,
    })
}

// The interface number of the interface descriptor at a place.
fn number_of(config: &[u8], at: usize) -> u8
    ensures { result ≡ byte config.now (at + 2) }
{
    if config.len() <= at {
        return 0;
    }
    scan::byte_at(config, at + 2)
}

// The survey of a configuration by the rules 1 to 9 and 17.
pub fn cut(config: &[u8]) -> Result<Survey, Refusal>
    ensures { result ≡ told (verdict config.now) (survey_of config.now) }
{
    let frame = groups::framed(config)?;
    survey_run(config, frame)
}
