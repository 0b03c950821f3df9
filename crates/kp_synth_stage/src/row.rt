// The rows of targets, and the results of reads.
use kp_net::NodeId;

/// A row (bypass entry) of a stage for the reads of a target below it: whether the stage is full, whether its intent
/// is known, and then whether the result is enabled and the address that it writes; whether its value is available,
/// and the value.
#[derive(Clone, Copy)]
pub struct Row {
    pub full: NodeId,
    pub known: bool,
    pub enable: Option<NodeId>,
    pub address: Option<NodeId>,
    pub ok: NodeId,
    pub value: NodeId,
}

/// The source of a target's own value: the node of a register, or the number of a file among the files.
#[derive(Clone, Copy)]
pub enum Own {
    Register(NodeId),
    File(u32),
}

/// A target as reads see it: its own value, and the stages above that may write it, nearest first.
pub struct Source {
    pub own: Own,
    pub width: u8,
    pub rows: Vec<Row>,
}

impl Drop for Source {
    fn drop(self) {
        let Source {
            own,
            width: _,
            rows,
        } = self;
        drop(own);
        drop(rows);
    }
}

/// The truth of a read: whether it is available, and the value.
#[derive(Clone, Copy)]
pub struct Truth {
    pub ok: NodeId,
    pub value: NodeId,
}

/// The value of a read, and whether its truth is missing.
#[derive(Clone, Copy)]
pub(crate) struct Got {
    pub value: NodeId,
    pub lacks: NodeId,
}

/// The value of a read, whether its truth is missing, and its guess.
#[derive(Clone, Copy)]
pub(crate) struct Answer {
    pub value: NodeId,
    pub lacks: NodeId,
    pub guess: Option<NodeId>,
}
