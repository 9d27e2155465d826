// The key of the report: the name of a job, and then its number.
ghost use Rattle.std.specs.Prelude.{◌≡◌};
ghost use Rattle.keys.specs.Names.{earlier};
ghost use Rattle.keys.specs.Orders.{job_of, spelled_before};
ghost use Rattle.job.specs.Names.{spelled};
ghost use Rattle.keys.specs.NameOrder as names;

use heap::Key;
use job::name::Name;

#[derive(Clone, Copy)]
pub struct NameKey {
    pub name: Name,
    pub number: u32,
}

// Names compare byte by byte, and a name that is the beginning of a longer one comes first; of two jobs with one name, the smaller number does.
impl Key for NameKey {
    ghost handle_of = { job_of };

    ghost before = { spelled_before };

    ghost order = { record {
      never = λ p. names.never (spelled p.name) p.number;
      one = λ p q other. names.one (spelled p.name) (spelled q.name) p.number q.number other;
      chain = λ p q r. names.chain (spelled p.name) (spelled q.name) (spelled r.name) p.number q.number r.number;
    } };

    fn handle(&self) -> u32 {
        self.number
    }

    fn comes_before(&self, other: &NameKey) -> bool {
        name_before(
            self.name.as_bytes(),
            other.name.as_bytes(),
            self.number,
            other.number,
        )
    }
}

// Whether the name a comes before the name b, or is the same and has the smaller number.
// It is over bytes and not over keys, so that the law and the tests speak of names of any length.
fn name_before(a: &[u8], b: &[u8], m: u32, n: u32) -> bool
    ensures { result ≡ earlier a.now b.now m n }
{
    a.cmp(b).then(m.cmp(&n)).is_lt()
}

#[cfg(test)]
mod tests {
    use super::*;

    #[test]
    fn a_beginning_comes_first(rt: HostRuntime) {
        assert!(rt; name_before(b"arc", b"arcs", 7, 3));
        assert!(rt; !name_before(b"arcs", b"arc", 3, 7));
        assert!(rt; name_before(b"arc-9", b"b", 7, 3));
        assert!(rt; name_before(b"moon", b"moon", 3, 7));
    }
}
