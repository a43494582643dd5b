// The net that a spent time is reported on.
ghost use Rattle.std.specs.Prelude.{◌<◌, length};
ghost use Rattle.sim_times.specs.Naming.{IsLeastOf};

/// The least of some nets.
pub fn least_net(nets: &[u32]) -> u32
    requires { 0 < length nets.now }
    ensures { IsLeastOf nets.now result }
{
    let mut least = nets[0];
    for net in nets {
        least = least.min(*net);
    }
    least
}
