//! A directory of written programs and libraries, with the texts about the build.

ghost use Rattle.std.specs.Prelude.{◌≡◌, All, IfOk, Ok, Option};
ghost use Rattle.appdir_files.specs.Writing.{IsProbed};
ghost use Rattle.host_record.specs.Grammar.{record_text};
ghost use Rattle.extra_files.specs.Extras.{AreExtras};
ghost use Rattle.load_model.specs.World.{World};
ghost use Rattle.build_plan.specs.Building.{IsBuilding};
ghost use Rattle.build_plan.specs.Deciding.{IsSafePlan, building_of};
ghost use Rattle.build_texts.specs.Texts.{record_in};
ghost use Rattle.appdir_build.specs.Outcome.{SourceMeets};
ghost use Rattle.appdir_build.specs.Writing.{AreWritten, IsAssembled, IsListing, IsOriginsOf, data_from, data_to};

use crate::built::Built;
use crate::items::all_items;
use crate::sources::{count_objects, count_of, sources_of, sum_of};
use crate::writing::Written;
use app_config::Config;
use appdir_files::{Item, ListStop, list};
use build_plan::Plan;
use build_texts::{Report, report_of};
use load_model::{List, NoMemory, Text};
use path_text::Abs;
use std::alloc::Global;

/// Where the objects of a directory come from, and how many there are.
#[derive(Drop)]
pub struct Origins {
    pub sources: List<Abs>,
    pub bundled: u32,
    pub hosts: u32,
    pub objects: u32,
}

/// The directory of these files, with the text of the record and the other texts about the build.
pub fn assembled(
    alloc: Global,
    config: &Config,
    plan: Plan,
    record_bytes: Text,
    written: Written,
    extras: List<Item>,
) -> Result<Built, ListStop>
    requires safe { IsSafePlan config.now plan }
    requires recorded { record_bytes ≡ record_text (record_in (building_of plan)) }
    ensures answer { (world : World) → IsBuilding world config.now (building_of plan)
        → SourceMeets world config.now (building_of plan)
        → AreWritten world config.now plan written
        → AreExtras world config.now (Ok extras)
        → IsAssembled world config.now result }
    ensures probed { (told : Option World) → All (IsProbed told) written.programs
        → All (IsProbed told) written.libs → All (IsProbed told) extras
        → IfOk result (λ built. All (IsProbed told) built.items) }
{
    let Ok(origins) = origins_of(alloc, &plan) else {
        return Err(ListStop::NoMemory);
    };
    let Ok(report) = report_of(alloc, config, plan) else {
        return Err(ListStop::NoMemory);
    };
    let Report {
        text,
        references,
        bound,
    } = report;
    match listed(alloc, config, written, extras, record_bytes, text) {
        Ok(items) => Ok(Built {
            items,
            sources: origins.sources,
            bundled: origins.bundled,
            hosts: origins.hosts,
            references,
            bound,
            objects: origins.objects,
        }),
        Err(stop) => Err(stop),
    }
}

fn origins_of(alloc: Global, plan: &Plan) -> Result<Origins, NoMemory>
    ensures { IfOk result (IsOriginsOf plan.now) }
{
    let bundled = count_of(plan.split.libs.as_slice().len())?;
    let hosts = count_of(plan.split.hosts.as_slice().len())?;
    let objects = count_objects(plan.loads.runs.as_slice())?;
    let sources = sources_of(alloc, plan)?;
    Ok(Origins {
        sources,
        bundled,
        hosts,
        objects,
    })
}

/// The files with these texts, in order, where they are a directory.
fn listed(
    alloc: Global,
    config: &Config,
    written: Written,
    extras: List<Item>,
    record_bytes: Text,
    report: Text,
) -> Result<List<Item>, ListStop>
    ensures { IsListing config.now written extras record_bytes report result }
{
    let Ok(data) = data_range(config, &written, &extras) else {
        return Err(ListStop::NoMemory);
    };
    match all_items(alloc, written, extras, record_bytes, report) {
        Ok(items) => list(alloc, items, data.from, data.to),
        Err(_) => Err(ListStop::NoMemory),
    }
}

/// From which to which number the data files stand among the files.
#[derive(Clone, Copy)]
struct DataRange {
    from: u32,
    to: u32,
}

fn data_range(
    config: &Config,
    written: &Written,
    extras: &List<Item>,
) -> Result<DataRange, NoMemory>
    ensures from { IfOk result (λ range. range.from ≡ data_from written.now) }
    ensures to { IfOk result (λ range. range.to ≡ data_to config.now written.now extras.now) }
{
    let programs = written.programs.as_slice().len();
    let tools = programs.saturating_sub(1);
    let data = config.files.as_slice().len().min(extras.as_slice().len());
    let from = sum_of(count_of(written.libs.as_slice().len())?, count_of(tools)?)?;
    let to = sum_of(from, count_of(data)?)?;
    Ok(DataRange { from, to })
}
