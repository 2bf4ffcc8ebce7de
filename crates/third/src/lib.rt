#![tactic(auto)]
// The reader of the 3.0 edition (document 02, No. 12), whatever the protocol byte says. What it promises to the layer above: for every configuration and
// every cluster buffer the refusal with number and place, the first that applies of 1 to 6, 8, 51, 9, 10, 11, 12, 52, 13 and 16; or how many
// entities there are; and for every lent sheet the entities' records in it, or the sheet as it stood.
ghost use Rattle.std.specs.Prelude.{◌≡◌, length};
ghost use Rattle.ground.specs.Refuse.{none};
ghost use Rattle.ground.specs.Told.{told, kept_or};
ghost use Rattle.third.specs.Judgement.{run_refused, clustered_in, linked_in, framed_in, found_in, third_finding, third_verdict, sheet_refused, third_answer, third_sheet};
ghost use Rattle.ranks.specs.Order.{ordered};

use entities::Run;
use ground::{Refusal, refuse_at, refuse_unless};
use groups::Frame;
use layout::Cluster;

// What stands in a configuration that these rules do not refuse.
#[derive(Clone, Copy)]
struct Finding {
    header: usize,
    run: Run,
    clusters: [Cluster; 32],
}

// The answer: "the sheet only", and how many entities it shows. A refusal: its number and place, and no entity.
// Stays: a refusal's number and place beside the count, since sheet_taken and sheet_refused name these three fields.
#[derive(Clone, Copy)]
pub struct SheetAnswer {
    pub number: u8,
    pub place: usize,
    pub entities: usize,
}

// Rules 8, 51 and 9 of a run from a place on, count descriptors long, behind the header.
fn judge_run(
    s: &[u8],
    clusters: &[u8],
    from: usize,
    count: usize,
    header: usize,
) -> Result<(), Refusal>
    ensures { result ≡ kept_or (run_refused s.now clusters.now from count header none) }
{
    refuse_unless(1 <= count && count <= entities::MOST_ENTITIES, 8, header)?;
    refuse_at(51, buffer::check_buffer(clusters))?;
    refuse_at(9, run3::wrong_layout(s, from))
}

// Rules 52 and 13 of a run, which is also lent in its order.
fn judge_clusters(
    config: &[u8],
    clusters: &[u8],
    header: usize,
    run: Run,
    order: Run,
) -> Result<Finding, Refusal>
    requires { order ≡ ordered config.now run }
    ensures { result ≡ clustered_in config.now clusters.now header run }
{
    refuse_at(52, links3::check_names(config, clusters, run))?;
    let given = sweep3::sweep(config, order);
    refuse_at(13, keeping3::check_clusters(config, clusters, run, given))?;
    Ok(Finding {
        header,
        run,
        clusters: clusters3::by_index(clusters, run, given),
    })
}

// Rules 10, 11, 12, 52 and 13 of a run.
fn judge_links(config: &[u8], clusters: &[u8], header: usize, run: Run) -> Result<Finding, Refusal>
    ensures { result ≡ linked_in config.now clusters.now header run }
{
    refuse_at(10, ids::check_ids(run))?;
    refuse_at(11, links3::check_sources(config, run))?;
    let order = ranks::order_of(config, run);
    refuse_at(12, ranks::check_ranks(run, order))?;
    judge_clusters(config, clusters, header, run, order)
}

// What is found of a configuration that keeps the rules 1 to 6.
fn judge_frame(config: &[u8], clusters: &[u8], f: Frame) -> Result<Finding, Refusal>
    ensures { result ≡ framed_in config.now clusters.now f }
{
    let s = scan::stretch(config, 0, f.end);
    let run = run3::read_run(s, f.run);
    judge_run(s, clusters, f.run, run.count, f.header)?;
    judge_links(config, clusters, f.header, run)
}

// What is found of a configuration by the rules of the 3.0 edition but 16.
fn judge(config: &[u8], clusters: &[u8]) -> Result<Finding, Refusal>
    ensures { result ≡ third_finding config.now clusters.now }
{
    let frame = groups::framed_third(config)?;
    judge_frame(config, clusters, frame)
}

// The same with rule 16, for a sheet of room bytes.
fn judge_room(config: &[u8], clusters: &[u8], room: usize) -> Result<Finding, Refusal>
    ensures { result ≡ told (third_verdict config.now clusters.now room) (found_in config.now clusters.now) }
{
    let found = judge(config, clusters)?;
    refuse_unless(records::has_room(found.run, room), 16, found.header)?;
    Ok(found)
}

fn refused(refusal: Refusal) -> SheetAnswer
    ensures { result ≡ sheet_refused refusal }
{
    SheetAnswer {
        number: refusal.number,
        place: refusal.place,
        entities: 0,
    }
}

// Reads one configuration and its cluster buffer into a lent sheet: what is found, rule 16, and the records.
pub fn read(config: &[u8], clusters: &[u8], sheet: &mut [u8]) -> SheetAnswer
    ensures value { result ≡ third_answer config.now clusters.now (length sheet.old) }
    ensures sheet_after { sheet.new ≡ third_sheet config.now clusters.now sheet.old }
{
    match judge_room(config, clusters, sheet.len()) {
        Err(refusal) => refused(refusal),
        Ok(found) => {
            records::show(config, found.run, found.clusters, sheet);
            SheetAnswer {
                number: 0,
                place: 0,
                entities: found.run.count,
            }
        }
    }
}
