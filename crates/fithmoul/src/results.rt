// What the calls answer, as structs of numbers that C can read, and how they are made of the library's answers. `refusal` is 0 where the
// call is accepted, else a row of 01's table with its place; what a refused call has no answer for is 0.
ghost use Rattle.std.specs.Prelude.{◌≡◌, ◌<◌};
ghost use Rattle.commit.specs.Commit.{commit_changes, run_changes};
ghost use Rattle.quote.specs.Quote.{last_change};
ghost use Rattle.fithmoul.specs.Results.{check_result, locate_result, point_answer, ask_result};
ghost use Rattle.fithmoul.specs.Results.{with_changes, commit_result, ran_with_changes, run_result};
ghost use Rattle.fithmoul.specs.Results.{stepped_result, step_result, finished_result, finish_result, volume_result};
ghost use Rattle.fithmoul.specs.Results.{area_total_result, side_query_result};
ghost use Rattle.fithmoul.specs.Results.{loaded_result, bulk_load_result};

use bulk_load::BulkLoadAnswer;
use finish::{FinishAnswer, Totals};
use int128::Int128;
use locate::Place;
use mesh::Counts;
use mesh_check::Refusal;
use quote::Quote;
use sweep::{Answer, StepAnswer};
use volume::Volumes;

#[repr(C)]
#[derive(Clone, Copy)]
pub struct CheckResult {
    pub refusal: u32,
    pub place: u32,
}

// A boundary edge, and how many nodes of the ring were passed after the first on the way to it.
#[repr(C)]
#[derive(Clone, Copy)]
pub struct LocateResult {
    pub refusal: u32,
    pub place: u32,
    pub edge: u32,
    pub passed: u32,
}

// A point's answer, word by word as in a run's answers row: 01's number of its fate, its vertex where it was added, the faces added, the
// flips.
#[repr(C)]
#[derive(Clone, Copy)]
pub struct PointAnswer {
    pub fate: u64,
    pub vertex: u64,
    pub faces: u64,
    pub flips: u64,
}

// The mesh's counts after the call, and the point's answer.
#[repr(C)]
#[derive(Clone, Copy)]
pub struct StepResult {
    pub refusal: u32,
    pub place: u32,
    pub vertices: u32,
    pub edges: u32,
    pub faces: u32,
    pub answer: PointAnswer,
}

// A quote: zeros where refused.
#[repr(C)]
#[derive(Clone, Copy)]
pub struct AskResult {
    pub refusal: u32,
    pub place: u32,
    pub quote: Quote,
}

// A step's result, with the change count after the call.
#[repr(C)]
#[derive(Clone, Copy)]
pub struct CommitResult {
    pub refusal: u32,
    pub place: u32,
    pub vertices: u32,
    pub edges: u32,
    pub faces: u32,
    pub changes: u32,
    pub answer: PointAnswer,
}

// The mesh's counts after the call, the faces added by the convexity passes, their flips and those of the closing pass.
#[repr(C)]
#[derive(Clone, Copy)]
pub struct FinishResult {
    pub refusal: u32,
    pub place: u32,
    pub vertices: u32,
    pub edges: u32,
    pub faces: u32,
    pub faces_added: u32,
    pub convex_flips: u64,
    pub closing_flips: u64,
}

// A finish's result, with the change count after the call.
#[repr(C)]
#[derive(Clone, Copy)]
pub struct RunResult {
    pub refusal: u32,
    pub place: u32,
    pub vertices: u32,
    pub edges: u32,
    pub faces: u32,
    pub changes: u32,
    pub faces_added: u32,
    pub convex_flips: u64,
    pub closing_flips: u64,
}

// A run's result, and whether the points came to no triangle: 1 for a line of points, one point, or none.
#[repr(C)]
#[derive(Clone, Copy)]
pub struct BulkLoadResult {
    pub refusal: u32,
    pub place: u32,
    pub vertices: u32,
    pub edges: u32,
    pub faces: u32,
    pub changes: u32,
    pub line: u32,
    pub faces_added: u32,
    pub convex_flips: u64,
    pub closing_flips: u64,
}

// Six times the signed volume in cubic millimetres, two's complement in a high and a low half, and the volume in cubic metres.
#[repr(C)]
#[derive(Clone, Copy)]
pub struct VolumeResult {
    pub refusal: u32,
    pub place: u32,
    pub six_volumes_high: u64,
    pub six_volumes_low: u64,
    pub cubic_metres: i64,
}

// The doubled areas of a mesh's triangles, in total, in two halves.
#[repr(C)]
#[derive(Clone, Copy)]
pub struct AreaTotalResult {
    pub refusal: u32,
    pub place: u32,
    pub area_total_high: u64,
    pub area_total_low: u64,
}

// A triangle's doubled area.
#[repr(C)]
#[derive(Clone, Copy)]
pub struct SideQueryResult {
    pub refusal: u32,
    pub place: u32,
    pub doubled_area: i64,
}

impl From<Result<(), Refusal>> for CheckResult {
    ghost from_gives = { λ checked res. res ≡ check_result checked };

    fn from(checked: Result<(), Refusal>) -> CheckResult {
        match checked {
            Ok(()) => CheckResult {
                refusal: 0,
                place: 0,
            },
            Err(x) => CheckResult {
                refusal: x.number,
                place: x.place,
            },
        }
    }
}

impl From<Result<Place, Refusal>> for LocateResult {
    ghost from_gives = { λ located res. res ≡ locate_result located };

    fn from(located: Result<Place, Refusal>) -> LocateResult {
        match located {
            Ok(p) => LocateResult {
                refusal: 0,
                place: 0,
                edge: p.edge,
                passed: p.passed,
            },
            Err(x) => LocateResult {
                refusal: x.number,
                place: x.place,
                edge: 0,
                passed: 0,
            },
        }
    }
}

impl From<Answer> for PointAnswer {
    ghost from_gives = { λ answer res. res ≡ point_answer answer };

    fn from(answer: Answer) -> PointAnswer {
        PointAnswer {
            fate: decide::fate_number(answer.fate),
            vertex: decide::fate_vertex(answer.fate),
            faces: answer.faces as u64,
            flips: answer.flips,
        }
    }
}

fn stepped_result(counts: Counts, stepped: Result<Answer, Refusal>) -> StepResult
    ensures { result ≡ stepped_result counts stepped }
{
    match stepped {
        Ok(answer) => StepResult {
            refusal: 0,
            place: 0,
            vertices: counts.vertices,
            edges: counts.edges,
            faces: counts.faces,
            answer: PointAnswer::from(answer),
        },
        Err(x) => StepResult {
            refusal: x.number,
            place: x.place,
            vertices: counts.vertices,
            edges: counts.edges,
            faces: counts.faces,
            answer: PointAnswer {
                fate: 0,
                vertex: 0,
                faces: 0,
                flips: 0,
            },
        },
    }
}

impl From<StepAnswer> for StepResult {
    ghost from_gives = { λ answer res. res ≡ step_result answer };

    fn from(answer: StepAnswer) -> StepResult {
        stepped_result(answer.counts, answer.stepped)
    }
}

fn finished_result(counts: Counts, finished: Result<Totals, Refusal>) -> FinishResult
    ensures { result ≡ finished_result counts finished }
{
    match finished {
        Ok(totals) => FinishResult {
            refusal: 0,
            place: 0,
            vertices: counts.vertices,
            edges: counts.edges,
            faces: counts.faces,
            faces_added: totals.faces,
            convex_flips: totals.convexflips,
            closing_flips: totals.closingflips,
        },
        Err(x) => FinishResult {
            refusal: x.number,
            place: x.place,
            vertices: counts.vertices,
            edges: counts.edges,
            faces: counts.faces,
            faces_added: 0,
            convex_flips: 0,
            closing_flips: 0,
        },
    }
}

impl From<FinishAnswer> for FinishResult {
    ghost from_gives = { λ answer res. res ≡ finish_result answer };

    fn from(answer: FinishAnswer) -> FinishResult {
        finished_result(answer.counts, answer.finished)
    }
}

impl From<Result<Volumes, Refusal>> for VolumeResult {
    ghost from_gives = { λ measured res. res ≡ volume_result measured };

    fn from(measured: Result<Volumes, Refusal>) -> VolumeResult {
        match measured {
            Ok(volumes) => VolumeResult {
                refusal: 0,
                place: 0,
                six_volumes_high: volumes.six_volumes.high,
                six_volumes_low: volumes.six_volumes.low,
                cubic_metres: volumes.cubic_metres,
            },
            Err(x) => VolumeResult {
                refusal: x.number,
                place: x.place,
                six_volumes_high: 0,
                six_volumes_low: 0,
                cubic_metres: 0,
            },
        }
    }
}

impl From<Result<Int128, Refusal>> for AreaTotalResult {
    ghost from_gives = { λ totalled res. res ≡ area_total_result totalled };

    fn from(totalled: Result<Int128, Refusal>) -> AreaTotalResult {
        match totalled {
            Ok(total) => AreaTotalResult {
                refusal: 0,
                place: 0,
                area_total_high: total.high,
                area_total_low: total.low,
            },
            Err(x) => AreaTotalResult {
                refusal: x.number,
                place: x.place,
                area_total_high: 0,
                area_total_low: 0,
            },
        }
    }
}

impl From<Result<i64, Refusal>> for SideQueryResult {
    ghost from_gives = { λ sided res. res ≡ side_query_result sided };

    fn from(sided: Result<i64, Refusal>) -> SideQueryResult {
        match sided {
            Ok(area) => SideQueryResult {
                refusal: 0,
                place: 0,
                doubled_area: area,
            },
            Err(x) => SideQueryResult {
                refusal: x.number,
                place: x.place,
                doubled_area: 0,
            },
        }
    }
}

impl From<Result<Quote, Refusal>> for AskResult {
    ghost from_gives = { λ asked res. res ≡ ask_result asked };

    fn from(asked: Result<Quote, Refusal>) -> AskResult {
        match asked {
            Ok(quote) => AskResult {
                refusal: 0,
                place: 0,
                quote,
            },
            Err(x) => AskResult {
                refusal: x.number,
                place: x.place,
                quote: Quote {
                    changes: 0,
                    x: 0,
                    y: 0,
                    z: 0,
                    fate: 0,
                    faces: 0,
                },
            },
        }
    }
}

fn with_changes(changes: u32, res: StepResult) -> CommitResult
    ensures { result ≡ with_changes changes res }
{
    CommitResult {
        refusal: res.refusal,
        place: res.place,
        vertices: res.vertices,
        edges: res.edges,
        faces: res.faces,
        changes,
        answer: res.answer,
    }
}

// Nothing has changed, the count neither.
pub fn commit_refused(changes: u32, counts: Counts, refusal: Refusal) -> CommitResult
    ensures { result ≡ commit_result changes (record { counts = counts; stepped = Err refusal }) }
{
    let refused = StepAnswer {
        counts,
        stepped: Err(refusal),
    };
    with_changes(changes, StepResult::from(refused))
}

// A commit that the checks accept, from the count before it.
pub fn commit_result(changes: u32, answer: StepAnswer) -> CommitResult
    requires { changes < last_change }
    ensures { result ≡ commit_result (commit_changes changes answer.stepped) answer }
{
    let after = commit::commit_changes(changes, answer.stepped);
    with_changes(after, StepResult::from(answer))
}

fn ran_with_changes(changes: u32, res: FinishResult) -> RunResult
    ensures { result ≡ ran_with_changes changes res }
{
    RunResult {
        refusal: res.refusal,
        place: res.place,
        vertices: res.vertices,
        edges: res.edges,
        faces: res.faces,
        changes,
        faces_added: res.faces_added,
        convex_flips: res.convex_flips,
        closing_flips: res.closing_flips,
    }
}

// A run, from the count before it.
pub fn run_result(changes: u32, answer: FinishAnswer) -> RunResult
    ensures { result ≡ run_result (run_changes changes answer.finished) answer }
{
    let after = commit::run_changes(changes, answer.finished);
    ran_with_changes(after, FinishResult::from(answer))
}

// Refused before anything is done.
pub fn run_refused(changes: u32, counts: Counts, refusal: Refusal) -> RunResult
    ensures { result ≡ run_result (run_changes changes (Err refusal))
        (record { counts = counts; finished = Err refusal }) }
{
    run_result(
        changes,
        FinishAnswer {
            counts,
            finished: Err(refusal),
        },
    )
}

// With the mark of a line. The change count starts at 0.
fn loaded_result(line: bool, res: FinishResult) -> BulkLoadResult
    ensures { result ≡ loaded_result line res }
{
    BulkLoadResult {
        refusal: res.refusal,
        place: res.place,
        vertices: res.vertices,
        edges: res.edges,
        faces: res.faces,
        changes: 0,
        line: u32::from(line),
        faces_added: res.faces_added,
        convex_flips: res.convex_flips,
        closing_flips: res.closing_flips,
    }
}

// A bulk load.
impl From<BulkLoadAnswer> for BulkLoadResult {
    ghost from_gives = { λ answer res. res ≡ bulk_load_result answer };

    fn from(answer: BulkLoadAnswer) -> BulkLoadResult {
        loaded_result(answer.line, FinishResult::from(answer.finish))
    }
}
