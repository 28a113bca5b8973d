use cl_base::Path;
use cl_pending::Waits;
use cl_query::Job;
use cl_rpc::Id;

/// A query request that waits for its reply, and its job: the one that is out for it, or the one that needs the header
/// that is awaited.
#[derive(Drop)]
pub struct Waiting {
    pub id: Id,
    pub job: Job,
}

impl Waits for Waiting {
    ghost use Rattle.cl_core.specs.Waiting.{key_of};

    ghost key = { key_of };

    fn id(&self) -> &Id {
        &self.id
    }

    fn message(&self) -> u64 {
        self.job.message
    }

    fn path(&self) -> &Path {
        &self.job.path
    }
}
