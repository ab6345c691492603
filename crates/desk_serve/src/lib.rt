// The service Serve, by value.

#![tactic(auto)]

ghost use Rattle.std.specs.Prelude.{◌≡◌, true};
ghost use Rattle.answers.specs.Answers.{mending_at, mending_number};
ghost use Rattle.code.specs.Refusals.{unless_refused};
ghost use Rattle.desk_job.specs.Jobs.{is_good};
ghost use Rattle.desk_serve.specs.Serve.{job_recovery, job_number, served_once, serve_of, ServeGives};

use answers::Refusal;
use desk_job::Job;
use desk_record::{After, Desk};

// What a good job does with a word: refuses it by 5, 13, or 9 with a group, or recovers it.
fn serve_job(job: Job, word: &mut [u8]) -> Result<(), Refusal>
    requires { is_good job ≡ true }
    ensures answer { result ≡ mending_at (job_number job word.old) (job_recovery job word.old).group }
    ensures number { mending_number result ≡ job_number job word.old }
    ensures word { word.new ≡ unless_refused (job_number job word.old) (job_recovery job word.old).word word.old }
{
    let m = job.m as usize;
    let w = job.w as usize;
    let c = job.c as usize;
    let n = m * w;
    if word.len() != n {
        return Err(Refusal::Length);
    }
    if job.served == Job::MAX_SERVED {
        return Err(Refusal::ServedOut);
    }
    let mut marks = job.marks;
    recover::recover(m, w, c, word, &mut marks[..n])
}

// The job with one more word served; its marks and figures stay.
fn served_once(job: Job) -> Job
    requires { ¬ (job.served ≡ 4294967295) }
    ensures { result ≡ served_once job }
{
    Job {
        served: job.served + 1,
        ..job
    }
}

// The service Serve. The word is recovered by a copy of the job's marks, which stay.
pub fn serve(mut desk: Desk, handle: u64, word: &mut [u8]) -> After<()>
    ensures { ServeGives (serve_of handle word.old desk) word.new result.desk result.answer }
{
    if let Err(e) = desk_record::handle_refusal(&desk, handle) {
        return After {
            desk,
            answer: Err(e),
        };
    }
    let s = (handle % 8) as usize;
    let job = desk.jobs[s];
    let answer = serve_job(job, word);
    if answer.is_ok() {
        desk.jobs[s] = served_once(job);
    }
    After { desk, answer }
}
