//! What the texts of examples/health tell over the beats of a few charts, each worked out by hand from the text and
//! from docs/HEALTH.md. The comment of each says how.

mod files;

use crate::steps::{MAKE, RUN, first_wrong};
use files::{CPU, DISK, MEMORY, NETWORK, TEMPLATE};
use host_model::Status;
use std::test::Fail;

const HEALTH: &[&str] = &["health"];

/// `iowait` is no dimension of a lookup.
const CPU_BEATS: &str = "CHART system.cpu '' 'Processors' '%'\n\
    DIMENSION user\nDIMENSION system\nDIMENSION steal\nDIMENSION iowait\n\
    BEGIN system.cpu\nSET user = 50\nSET system = 22\nSET iowait = 900\nSET steal = 0\nEND\n\
    MOMENT 60\n\
    BEGIN system.cpu\nSET user = 70\nSET system = 30\nSET iowait = 900\nSET steal = 25\nEND\n\
    MOMENT 120\n\
    BEGIN system.cpu\nSET user = 70\nSET system = 30\nSET iowait = 900\nSET steal = 0\nEND\n\
    MOMENT 180\n\
    BEGIN system.cpu\nSET user = 40\nSET system = 20\nSET iowait = 900\nSET steal = 10\nEND\n\
    MOMENT 720\n\
    BEGIN system.cpu\nSET user = 30\nSET system = 20\nSET iowait = 900\nSET steal = 0\nEND\n\
    MOMENT 780\nMOMENT 840\n";

/// `cpu_busy` looks at t - 659 to t - 60, and `cpu_stolen` at t - 299 to t.
///
/// - 60: nothing lies a minute back; nothing is stolen.
/// - 120: 50 + 22 of the beat at 60; 25 is stolen, above 20.
/// - 180: (50 + 70) / 2 + (22 + 30) / 2 = 60 + 26, above 85. The 25 are still seen.
/// - 720: 61 to 660 has the beats at 120 and 180, 70 + 30 each, above 95. The 25 are out of sight, and 10 are not
///   above 20: cleared, and by its options without a wait.
/// - 780: 121 to 720 has the beats at 180 and 720: 55 + 25, not above 85, and above 75. A fall, past the wait to 720:
///   780 + 900.
/// - 840: 181 to 780 has the beats at 720 and 780: 35 + 20, not above 75. A fall within the wait: 840 + 1.5 * 900.
const CPU_TOLD: &str = "\
    STORED 2\nEVENT 1 60 system.cpu cpu_busy UNINITIALIZED UNDEFINED nan -\n\
    EVENT 2 60 system.cpu cpu_stolen UNINITIALIZED CLEAR 0 -\n\
    STORED 3\nEVENT 3 120 system.cpu cpu_busy UNDEFINED CLEAR 72 -\n\
    EVENT 4 120 system.cpu cpu_stolen CLEAR WARNING 25 120\n\
    STORED 4\nEVENT 5 180 system.cpu cpu_busy CLEAR WARNING 86 180\n\
    STORED 5\nEVENT 6 720 system.cpu cpu_busy WARNING CRITICAL 100 720\n\
    EVENT 7 720 system.cpu cpu_stolen WARNING CLEAR 10 -\n\
    STORED 6\nEVENT 8 780 system.cpu cpu_busy CRITICAL WARNING 80 1680\n\
    STORED 7\nEVENT 9 840 system.cpu cpu_busy WARNING CLEAR 55 2190\n";

const DISK_BEATS: &str = "CHART disk_space.root '' 'Space' GiB\nDIMENSION used\nDIMENSION avail\n\
    CHART disk_backlog.root '' 'Backlog' ms\nDIMENSION backlog\n\
    BEGIN disk_space.root\nSET used = 80\nSET avail = 20\nEND\n\
    BEGIN disk_backlog.root\nSET backlog = 3000\nEND\nMOMENT 600\n\
    BEGIN disk_space.root\nSET used = 95\nSET avail = 5\nEND\n\
    BEGIN disk_backlog.root\nSET backlog = 2500\nEND\nMOMENT 1200\n\
    BEGIN disk_space.root\nSET used = 990\nSET avail = 10\nEND\nMOMENT 1260\n\
    BEGIN disk_space.root\nSET used = 99\nSET avail = 1\nEND\n\
    BEGIN disk_backlog.root\nSET backlog = 0\nEND\nMOMENT 1800\n\
    BEGIN disk_space.root\nSET used = 50\nSET avail = 50\nEND\nMOMENT 1860\nMOMENT 5400\n";

/// `root_space` is computed each minute. `root_backlog` is computed each ten minutes, and looks at t - 3899 to t - 300.
///
/// - 600: 80 * 100 / 100, not above 90; nothing lies five minutes back.
/// - 1200: 95, a rise: 1200 + 60; the 3000 of the beat at 600.
/// - 1260: 990 * 100 / 1000 is above 98, but 10 are left: still a warning. The ten minutes are those of 1200.
/// - 1800: 99, and 1 is left: a rise past the wait to 1260; 3000 + 2500, above 5000, and no wait is configured.
/// - 1860: 50, a fall at the end of the wait, multiplied by 1: 1860 + 900. The ten minutes are those of 1800.
/// - 5400: 1501 to 5100 has the 0 of the beat at 1800.
const DISK_TOLD: &str = "\
    STORED 2\nEVENT 1 600 disk_space.root root_space UNINITIALIZED CLEAR 80 -\n\
    EVENT 2 600 disk_backlog.root root_backlog UNINITIALIZED UNDEFINED nan -\n\
    STORED 3\nEVENT 3 1200 disk_space.root root_space CLEAR WARNING 95 1260\n\
    EVENT 4 1200 disk_backlog.root root_backlog UNDEFINED CLEAR 3000 -\n\
    STORED 4\nSTORED 5\nEVENT 5 1800 disk_space.root root_space WARNING CRITICAL 99 1860\n\
    EVENT 6 1800 disk_backlog.root root_backlog CLEAR WARNING 5500 1800\n\
    STORED 6\nEVENT 7 1860 disk_space.root root_space CRITICAL CLEAR 50 2760\n\
    STORED 7\nEVENT 8 5400 disk_backlog.root root_backlog WARNING CLEAR 0 5400\n";

/// The second dimension is found by its name.
const MEMORY_BEATS: &str = "CHART mem.available '' 'Memory' MiB\n\
    DIMENSION avail\nDIMENSION used 'used by programs'\nDIMENSION cached\n\
    BEGIN mem.available\nSET avail = 50\nSET used = 30\nSET cached = 20\nEND\nMOMENT 10\n\
    BEGIN mem.available\nSET avail = 15\nSET used = 65\nSET cached = 20\nEND\nMOMENT 20\n\
    BEGIN mem.available\nSET avail = 5\nSET used = 75\nSET cached = 20\nEND\nMOMENT 30\n\
    BEGIN mem.available\nSET avail = 40\nSET used = 40\nSET cached = 20\nEND\nMOMENT 1800\n\
    BEGIN mem.available\nSET avail = 1\nSET used = 3\nSET cached = 96\nEND\nMOMENT 3600\n\
    BEGIN mem.available\nSET avail = 60\nSET used = 20\nSET cached = 20\nEND\nMOMENT 5400\n";

/// `memory_available` is computed each ten seconds, and `memory_runs_out` each half an hour, over t - 1799 to t.
///
/// - 10: 50 of 100, not below 20. The half hour is the first, as before it.
/// - 20: 15, below 20, a rise: 20 + 30.
/// - 30: 5, below 10, a rise within the wait, multiplied by 1: 30 + 30.
/// - 1800: 40, a fall past the wait, without one of its own; the least of 1 to 1800 are 5, 30 and 20, so
///   (5 + 30) * 100 / 55, rounded at seven decimals.
/// - 3600: 1, a rise: 3600 + 30; (1 + 3) * 100 / 100, below 5.
/// - 5400: 60; (60 + 20) * 100 / 100.
const MEMORY_TOLD: &str = "\
    STORED 2\nEVENT 1 10 mem.available memory_available UNINITIALIZED CLEAR 50 -\n\
    STORED 3\nEVENT 2 20 mem.available memory_available CLEAR WARNING 15 50\n\
    STORED 4\nEVENT 3 30 mem.available memory_available WARNING CRITICAL 5 60\n\
    STORED 5\nEVENT 4 1800 mem.available memory_available CRITICAL CLEAR 40 1800\n\
    EVENT 5 1800 mem.available memory_runs_out UNINITIALIZED CLEAR 63.6363636 -\n\
    STORED 6\nEVENT 6 3600 mem.available memory_available CLEAR CRITICAL 1 3630\n\
    EVENT 7 3600 mem.available memory_runs_out CLEAR WARNING 4 3600\n\
    STORED 7\nEVENT 8 5400 mem.available memory_available CRITICAL CLEAR 60 5400\n\
    EVENT 9 5400 mem.available memory_runs_out WARNING CLEAR 80 5400\n";

/// `multicast` is no dimension of a lookup.
const NETWORK_BEATS: &str = "CHART net_drops.eth0 '' 'Dropped' packets\n\
    DIMENSION inbound\nDIMENSION outbound\nDIMENSION multicast\n\
    CHART net.eth0 '' 'Bandwidth' kbps\nDIMENSION received\nDIMENSION sent\n\
    BEGIN net_drops.eth0\nSET inbound = 2\nSET outbound = -1\nSET multicast = 50\nEND\n\
    BEGIN net.eth0\nSET received = 100\nSET sent = 100\nEND\nMOMENT 60\n\
    BEGIN net_drops.eth0\nSET inbound = 0\nSET outbound = -2\nSET multicast = 50\nEND\n\
    BEGIN net.eth0\nSET received = 900 A\nSET sent = 100\nEND\nMOMENT 120\n\
    BEGIN net.eth0\nSET received = 900 A\nSET sent = 100\nEND\nMOMENT 300\n\
    BEGIN net_drops.eth0\nSET inbound = 1\nSET outbound = 0\nSET multicast = 50\nEND\n\
    BEGIN net.eth0\nSET received = 100\nSET sent = 100\nEND\nMOMENT 720\n";

/// `eth0_dropped` is computed each minute over t - 599 to t, and `eth0_unusual` each five minutes over t - 299 to t.
///
/// - 60: 2 + 1, each without its sign, below 5. The five minutes are the first.
/// - 120: (2 + 0) + (1 + 2) is 5. A rise has no wait. The five minutes are the first.
/// - 300: still 5; of `received` two points of three are unusual, of `sent` none: 66.6666667 + 0.
/// - 720: 121 to 720 has the beat at 720 alone: 1 + 0, a fall past the wait: 720 + 3600; 421 to 720 has nothing that
///   is unusual, and no wait is configured.
const NETWORK_TOLD: &str = "\
    STORED 2\nEVENT 1 60 net_drops.eth0 eth0_dropped UNINITIALIZED CLEAR 3 -\n\
    STORED 3\nEVENT 2 120 net_drops.eth0 eth0_dropped CLEAR WARNING 5 120\n\
    STORED 4\nEVENT 3 300 net.eth0 eth0_unusual UNINITIALIZED CRITICAL 66.6666667 300\n\
    STORED 5\nEVENT 4 720 net_drops.eth0 eth0_dropped WARNING CLEAR 1 4320\n\
    EVENT 5 720 net.eth0 eth0_unusual CRITICAL CLEAR 0 720\n";

/// Two charts of the context. `count` is no dimension of the lookup.
const TEMPLATE_BEATS: &str = "CHART web.front '' 'Front' ms f web.response_time\n\
    DIMENSION p50\nDIMENSION p99\nDIMENSION count\n\
    CHART web.back '' 'Back' ms f web.response_time\nDIMENSION p50\nDIMENSION p99\n\
    BEGIN web.front\nSET p50 = 100\nSET p99 = 400\nSET count = 90000\nEND\n\
    BEGIN web.back\nSET p50 = 200\nSET p99 = 300\nEND\nMOMENT 15\n\
    BEGIN web.front\nSET p50 = 100\nSET p99 = 1300\nSET count = 90000\nEND\n\
    BEGIN web.back\nSET p50 = 200\nSET p99 = 300\nEND\nMOMENT 30\n\
    BEGIN web.front\nSET p50 = 100\nSET p99 = 5800\nSET count = 90000\nEND\n\
    BEGIN web.back\nSET p50 = 200\nSET p99 = 10001\nEND\nMOMENT 45\n\
    BEGIN web.front\nSET p50 = 100\nSET p99 = 200\nSET count = 90000\nEND\n\
    BEGIN web.back\nSET p50 = 200\nSET p99 = 300\nEND\nMOMENT 60\nMOMENT 120\n";

/// `requests_slow` is computed each 15 seconds over t - 69 to t - 10, for `web.front` and then for `web.back`.
///
/// - 15: nothing lies ten seconds back.
/// - 30: the beat at 15: (400 - 100) / 1000 and (300 - 200) / 1000, neither above 0.5.
/// - 45: the beats at 15 and 30: ((400 + 1300) / 2 - 100) / 1000 is 0.75, a rise: 45 + 30. Of `web.back` still 0.1, but
///   its last value is 10001, above 10000.
/// - 60: the beats at 15, 30 and 45: (7500 / 3 - 100) / 1000 is 2.4, above 2.25, a rise within the wait: 60 + 2 * 30.
///   Of `web.back` (10601 / 3 - 200) / 1000 is above 2.25: critical still.
/// - 120: 51 to 110 has the beat at 60: 0.1 both. By the options a clearing has no wait.
const TEMPLATE_TOLD: &str = "\
    STORED 2\nEVENT 1 15 web.front requests_slow UNINITIALIZED UNDEFINED nan -\n\
    EVENT 2 15 web.back requests_slow UNINITIALIZED UNDEFINED nan -\n\
    STORED 3\nEVENT 3 30 web.front requests_slow UNDEFINED CLEAR 0.3 -\n\
    EVENT 4 30 web.back requests_slow UNDEFINED CLEAR 0.1 -\n\
    STORED 4\nEVENT 5 45 web.front requests_slow CLEAR WARNING 0.75 75\n\
    EVENT 6 45 web.back requests_slow CLEAR CRITICAL 0.1 75\n\
    STORED 5\nEVENT 7 60 web.front requests_slow WARNING CRITICAL 2.4 120\n\
    STORED 6\nEVENT 8 120 web.front requests_slow CRITICAL CLEAR 0.1 -\n\
    EVENT 9 120 web.back requests_slow CRITICAL CLEAR 0.1 -\n";

/// The texts, the beats, and what is told of them.
static EXAMPLES: [(&str, &str, &str); 5] = [
    (CPU, CPU_BEATS, CPU_TOLD),
    (DISK, DISK_BEATS, DISK_TOLD),
    (MEMORY, MEMORY_BEATS, MEMORY_TOLD),
    (NETWORK, NETWORK_BEATS, NETWORK_TOLD),
    (TEMPLATE, TEMPLATE_BEATS, TEMPLATE_TOLD),
];

#[test]
fn each_example_raises_and_clears_its_alarms(rt: HostRuntime) -> Result<(), Fail> {
    for (index, (text, beats, told)) in EXAMPLES.iter().enumerate() {
        let steps = [
            MAKE,
            (HEALTH, *text, "STORED 1\n", Status::Ok),
            (RUN, *beats, *told, Status::Ok),
        ];
        assert_eq!(rt; first_wrong(rt.alloc(), &steps)?, None, "in text {index}");
    }
    Ok(())
}
