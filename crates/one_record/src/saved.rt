// A whole list into a lent one of its length (RULES, section 7).
ghost use Rattle.std.specs.Prelude.{◌≡◌, length};

pub fn copy(from: &[u64], to: &mut [u64])
    requires { length from.now ≡ length to.old }
    ensures { to.new ≡ from.now }
{
    to.copy_from_slice(from);
}
