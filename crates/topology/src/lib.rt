#![tactic(auto)]
// Layer 2, topology, and the reader's entry points. What it promises to the layer above: for every configuration the refusal of
// document 01 with number and place, or what stands in it: the AudioControl number, the header, the run, a cluster on each entity's
// output, and the table of controls; and for every lent sheet the entities' records in it, or the sheet as it stood.
ghost use Rattle.std.specs.Prelude.{◌≡◌, length};
ghost use Rattle.ground.specs.Told.{told};
ghost use Rattle.topology.specs.Reading.{table_judged, survey_finding, found_in, finding_of, verdict_of, refused_reading, reading_of, sheet_of};

use cutting::Survey;
use entities::Run;
use ground::{Refusal, refuse_at, refuse_unless};
use layout::Cluster;
use table::Table;

// The interface number that a refusal answers.
const NO_INTERFACE: u8 = 0;

// What stands in a configuration that the rules 1 to 15 do not refuse.
#[derive(Clone, Copy)]
pub struct Finding {
    pub control: u8,
    pub header: usize,
    pub run: Run,
    pub clusters: [Cluster; 32],
    pub table: Table,
}

// The reader's answer. A refusal: its number and place, interface number 0, zero counts and an empty table. An acceptance: 0 for
// number and place, the AudioControl number, how many entities and controls there are, and the table of controls.
// Stays: a refusal's number and place beside the counts, since taken_reading and refused_reading name these six fields.
#[derive(Clone, Copy)]
pub struct Reading {
    pub number: u8,
    pub place: usize,
    pub control: u8,
    pub entities: usize,
    pub controls: usize,
    pub table: Table,
}

// The table of controls of a configuration that keeps the rules 1 to 14, and rule 15.
fn judge_table(config: &[u8], survey: Survey, clusters: [Cluster; 32]) -> Result<Finding, Refusal>
    ensures { result ≡ table_judged config.now survey clusters }
{
    let table = controls::read_controls(config, survey.run, clusters);
    refuse_at(15, controls::check_count(table, survey.header))?;
    Ok(Finding {
        control: survey.control,
        header: survey.header,
        run: survey.run,
        clusters,
        table,
    })
}

// Rules 10 to 15 of a configuration that the cutting layer has surveyed.
fn judge_survey(config: &[u8], survey: Survey) -> Result<Finding, Refusal>
    ensures { result ≡ survey_finding config.now survey }
{
    let clusters = connections::judge(config, survey.run)?;
    refuse_at(14, streaming::check_streams(config, survey.run, clusters))?;
    judge_table(config, survey, clusters)
}

// Judges a configuration by the rules 1 to 15: what was found, or the refusal.
pub fn judge(config: &[u8]) -> Result<Finding, Refusal>
    ensures { result ≡ finding_of config.now }
{
    let survey = cutting::cut(config)?;
    judge_survey(config, survey)
}

// The same with rule 16, for a sheet of room bytes.
fn judge_room(config: &[u8], room: usize) -> Result<Finding, Refusal>
    ensures { result ≡ told (verdict_of config.now room) (found_in config.now) }
{
    let found = judge(config)?;
    refuse_unless(records::has_room(found.run, room), 16, found.header)?;
    Ok(found)
}

fn refused(refusal: Refusal) -> Reading
    ensures { result ≡ refused_reading refusal }
{
    Reading {
        number: refusal.number,
        place: refusal.place,
        control: NO_INTERFACE,
        entities: 0,
        controls: 0,
        table: table::empty(),
    }
}

// Reads one configuration into a lent sheet: what is found by the rules 1 to 15, rule 16, and the records.
pub fn read(config: &[u8], sheet: &mut [u8]) -> Reading
    ensures value { result ≡ reading_of config.now (length sheet.old) }
    ensures sheet_after { sheet.new ≡ sheet_of config.now sheet.old }
{
    match judge_room(config, sheet.len()) {
        Err(refusal) => refused(refusal),
        Ok(found) => {
            records::show(config, found.run, found.clusters, sheet);
            Reading {
                number: 0,
                place: 0,
                control: found.control,
                entities: found.run.count,
                controls: found.table.count,
                table: found.table,
            }
        }
    }
}
