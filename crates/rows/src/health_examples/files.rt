//! The texts of examples/health, byte for byte: `tools/health_texts.py` says whether they are.

/// examples/health/cpu.conf
pub const CPU: &str = "# How busy the processors are, without what waits for disks.

alarm: cpu_busy
on: system.cpu
class: Utilization
lookup: average -10m at -1m every 1m unaligned of user,system,nice,irq,softirq
units: %
warn: $this > (($status >= $WARNING) ? (75) : (85))
crit: $this > (($status == $CRITICAL) ? (85) : (95))
delay: down 15m multiplier 1.5 max 1h
info: processors busy, on average \\
over ten minutes
to: sysadmin

alarm: cpu_stolen
on: system.cpu
lookup: max -5m of steal
every: 30s
warn: $this > 20
options: no-clear-notification
";

/// examples/health/disk.conf
pub const DISK: &str = "# The space and the load of one disk.

alarm: root_space
on: disk_space.root
calc: $used * 100 / ($avail + $used)
every: 1m
warn: $this > 90
crit: $this > 98 AND $avail < 5
delay: up 1m down 15m
units: %

alarm: root_backlog
on: disk_backlog.root
lookup: sum -1h at -5m every 10m
warn: $this > 5000
info: how long requests waited for the disk
";

/// examples/health/memory.conf
pub const MEMORY: &str = "# What is left of the memory, and how fast it goes.

alarm: memory_available
on: mem.available
calc: $avail * 100 / ($avail + ${used by programs} + $cached)
every: 10s
units: %
green: 20
red: 10
warn: $this < $green
crit: $this < $red
delay: up 30s
to: sysadmin

alarm: memory_runs_out
on: mem.available
lookup: min -30m percentage absolute of !cached *
warn: ($this != nan && $this < 5) ? 1 : 0
repeat: warning 1h
";

/// examples/health/network.conf
pub const NETWORK: &str = "# One network device.

alarm: eth0_dropped
on: net_drops.eth0
class: Errors
type: System
component: Network
lookup: sum -10m unaligned absolute of inbound|outbound
units: packets
every: 1m
warn: $this >= 5
delay: down 1h max 2h
to: netops

alarm: eth0_unusual
on: net.eth0
lookup: anomaly-rate -5m
crit: $this > 50
";

/// examples/health/template.conf
pub const TEMPLATE: &str = "# One alarm for each chart of a context.

template: requests_slow
on: web.response_time
lookup: average -1m at -10s every 15s min2max of p*
calc: $this / 1000
green: 0.5
red: 2.25
warn: $this > $green
crit: $this > $red OR $p99_raw > 10000
delay: up 30s multiplier 2 max 10m
options: no-clear-notification
info: from the fastest to the slowest answer
units: seconds
to: webmaster
";
