//! What a server counts, as Prometheus reads it.

use crate::counts::{Count, Counts};
use crate::times::write_sum;
use std::alloc::{AllocError, Global};

// A number that is told: its name, whether it only grows, and what it is.
#[derive(Drop)]
struct Metric {
    name: &'static str,
    grows: bool,
    about: &'static str,
    value: u64,
}

// A number that only grows.
fn counter(name: &'static str, about: &'static str, count: &Count) -> Metric {
    Metric {
        name,
        grows: true,
        about,
        value: count.value(),
    }
}

// How many came and haven't gone. What went is read first, so that it isn't more than came.
fn gauge(name: &'static str, about: &'static str, came: &Count, gone: &Count) -> Metric {
    let gone = gone.value();
    Metric {
        name,
        grows: false,
        about,
        value: came.value().saturating_sub(gone),
    }
}

// Appends what stands above a metric's values.
fn write_head(
    alloc: Global,
    name: &str,
    kind: &str,
    about: &str,
    out: &mut Vec<u8>,
) -> Result<(), AllocError> {
    let lines = format!(in alloc; "# HELP {name} {about}\n# TYPE {name} {kind}\n")?;
    out.extend_from_slice(lines.as_bytes())
}

impl Metric {
    // Appends it.
    fn write(&self, alloc: Global, out: &mut Vec<u8>) -> Result<(), AllocError> {
        let kind = if self.grows { "counter" } else { "gauge" };
        let name = self.name;
        write_head(alloc, name, kind, self.about, out)?;
        let value = self.value;
        let line = format!(in alloc; "{name} {value}\n")?;
        out.extend_from_slice(line.as_bytes())
    }
}

impl Counts {
    // The connections and roles.
    fn of_connections(&self) -> [Metric; 4] {
        [
            gauge(
                "mps_connections",
                "Connections that are open.",
                &self.here,
                &self.gone,
            ),
            counter(
                "mps_connections_total",
                "Connections that came.",
                &self.connections,
            ),
            counter(
                "mps_connections_unserved_total",
                "Times that a connection could not be served.",
                &self.unserved,
            ),
            gauge(
                "mps_roles_joined",
                "Roles that a connection acts for.",
                &self.roles,
                &self.parted,
            ),
        ]
    }

    // The sessions.
    fn of_sessions(&self) -> [Metric; 5] {
        [
            gauge(
                "mps_sessions_opening",
                "Sessions that are being opened.",
                &self.asked,
                &self.tried,
            ),
            gauge(
                "mps_sessions_open",
                "Sessions that are open.",
                &self.opened,
                &self.left,
            ),
            counter(
                "mps_sessions_opened_total",
                "Sessions that were opened.",
                &self.opened,
            ),
            counter(
                "mps_sessions_left_total",
                "Sessions that were let go of.",
                &self.left,
            ),
            counter(
                "mps_sessions_refused_total",
                "Times that a session could not be opened.",
                &self.refused,
            ),
        ]
    }

    // The journals.
    fn of_journals(&self) -> [Metric; 3] {
        [
            counter(
                "mps_sessions_lost_total",
                "Sessions of which lines could not be kept.",
                &self.lost,
            ),
            counter(
                "mps_journal_bytes_total",
                "Bytes that were written to journals.",
                &self.journal_bytes,
            ),
            gauge(
                "mps_lines_waiting",
                "Lines that wait for the disk.",
                &self.awaited,
                &self.settled,
            ),
        ]
    }

    /// Appends all of them in the text form, version 0.0.4, and whether the server ends. Out of memory is the only error.
    pub fn write(&self, alloc: Global, ending: bool, out: &mut Vec<u8>) -> Result<(), AllocError> {
        for metric in &self.of_connections() {
            metric.write(alloc, out)?;
        }
        for metric in &self.of_sessions() {
            metric.write(alloc, out)?;
        }
        for metric in &self.of_journals() {
            metric.write(alloc, out)?;
        }
        write_head(
            alloc,
            "mps_joins_total",
            "counter",
            "First lines, by answer.",
            out,
        )?;
        self.joins.write(alloc, "mps_joins_total", out)?;
        write_head(
            alloc,
            "mps_lines_total",
            "counter",
            "Other lines, by answer.",
            out,
        )?;
        self.lines.write(alloc, "mps_lines_total", out)?;
        let synced = "How long the disk, or the recorder, took to store lines.";
        write_head(alloc, "mps_sync_seconds", "histogram", synced, out)?;
        self.syncs.write(alloc, "mps_sync_seconds", out)?;
        let restored = "How long it took to restore sessions.";
        write_head(alloc, "mps_restore_seconds", "summary", restored, out)?;
        let (restoring, restores) = (self.restoring.value(), self.restores.value());
        write_sum(alloc, "mps_restore_seconds", restoring, restores, out)?;
        let end = Metric {
            name: "mps_ending",
            grows: false,
            about: "Whether the server ends.",
            value: ending as u64,
        };
        end.write(alloc, out)
    }
}
