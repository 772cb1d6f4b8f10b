//! The texts of examples/health, byte for byte.
use super::shown;
use std::test::Fail;

/// examples/health/cpu.conf
const CPU: &[u8] = b"# How busy the processors are, without what waits for disks.

alarm: cpu_busy
on: system.cpu
class: Utilization
lookup: average -10m at -1m every 1m unaligned of user,system,nice,irq,softirq
units: %
warn: $this > (($status >= $WARNING) ? (75) : (85))
crit: $this > (($status == $CRITICAL) ? (85) : (95))
delay: down 15m multiplier 1.5 max 1h
info: processors busy, on average \\
over ten minutes
to: sysadmin

alarm: cpu_stolen
on: system.cpu
lookup: max -5m of steal
every: 30s
warn: $this > 20
options: no-clear-notification
";

/// examples/health/memory.conf
const MEMORY: &[u8] = b"# What is left of the memory, and how fast it goes.

alarm: memory_available
on: mem.available
calc: $avail * 100 / ($avail + ${used by programs} + $cached)
every: 10s
units: %
green: 20
red: 10
warn: $this < $green
crit: $this < $red
delay: up 30s
to: sysadmin

alarm: memory_runs_out
on: mem.available
lookup: min -30m percentage absolute of !cached *
warn: ($this != nan && $this < 5) ? 1 : 0
repeat: warning 1h
";

/// examples/health/disk.conf
const DISK: &[u8] = b"# The space and the load of one disk.

alarm: root_space
on: disk_space.root
calc: $used * 100 / ($avail + $used)
every: 1m
warn: $this > 90
crit: $this > 98 AND $avail < 5
delay: up 1m down 15m
units: %

alarm: root_backlog
on: disk_backlog.root
lookup: sum -1h at -5m every 10m
warn: $this > 5000
info: how long requests waited for the disk
";

/// examples/health/network.conf
const NETWORK: &[u8] = b"# One network device.

alarm: eth0_dropped
on: net_drops.eth0
class: Errors
type: System
component: Network
lookup: sum -10m unaligned absolute of inbound|outbound
units: packets
every: 1m
warn: $this >= 5
delay: down 1h max 2h
to: netops

alarm: eth0_unusual
on: net.eth0
lookup: anomaly-rate -5m
crit: $this > 50
";

/// examples/health/template.conf
const TEMPLATE: &[u8] = b"# One alarm for each chart of a context.

template: requests_slow
on: web.response_time
lookup: average -1m at -10s every 15s min2max of p*
calc: $this / 1000
green: 0.5
red: 2.25
warn: $this > $green
crit: $this > $red OR $p99_raw > 10000
delay: up 30s multiplier 2 max 10m
options: no-clear-notification
info: from the fastest to the slowest answer
units: seconds
to: webmaster
";

/// A text, and what it says.
const EXAMPLES: [(&[u8], &str); 5] = [
    (
        CPU,
        "cpu_busy on system.cpu every 60 average 600 60 of user system nice irq softirq warn crit units % info processors busy, on average  over ten minutes to sysadmin up 0 down 900 by 15000000 max 3600; cpu_stolen on system.cpu every 30 max 300 0 of steal warn no-clear; 1",
    ),
    (
        MEMORY,
        "memory_available on mem.available every 10 calc warn crit green 200000000 red 100000000 units % to sysadmin up 30 down 0 by 10000000; memory_runs_out on mem.available every 1800 min 1800 0 absolute percentage of !cached * warn; 1",
    ),
    (
        DISK,
        "root_space on disk_space.root every 60 calc warn crit units % up 60 down 900 by 10000000; root_backlog on disk_backlog.root every 600 sum 3600 300 warn info how long requests waited for the disk; 0",
    ),
    (
        NETWORK,
        "eth0_dropped on net_drops.eth0 every 60 sum 600 0 absolute of inbound outbound warn units packets to netops up 0 down 3600 by 10000000 max 7200; eth0_unusual on net.eth0 every 300 anomaly-rate 300 0 crit; 3",
    ),
    (
        TEMPLATE,
        "requests_slow template on web.response_time every 15 average 60 10 min2max of p* calc warn crit green 5000000 red 22500000 units seconds info from the fastest to the slowest answer to webmaster up 30 down 0 by 20000000 max 600 no-clear; 0",
    ),
];

#[test]
fn the_examples_are_read(rt: HostRuntime) -> Result<(), Fail> {
    for (text, want) in EXAMPLES {
        let got = shown(rt.alloc(), text)?;
        assert_eq!(rt; got.as_str(), want);
    }
    Ok(())
}
