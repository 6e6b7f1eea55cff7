//! How many trials of a batch agree.
use crate::layer_check::Agreement;
use crate::run_check::RunAgreement;

// Of a batch of netlists.
#[derive(Clone, Copy, Default)]
pub(crate) struct NetlistTally {
    pub(crate) netlists: usize,
    pub(crate) layers: usize,
    pub(crate) splits: usize,
    pub(crate) orders: usize,
}

// Of a batch of lists of calls.
#[derive(Clone, Copy, Default)]
pub(crate) struct RunTally {
    pub(crate) lists: usize,
    pub(crate) calls: usize,
    // How many lists are run over layers that agree.
    pub(crate) layers: usize,
    pub(crate) answers: usize,
    // How many calls are left as they were for want of room.
    pub(crate) left: usize,
    pub(crate) orders: usize,
}

impl NetlistTally {
    pub(crate) fn add(&mut self, agreement: Agreement) {
        self.netlists = self.netlists.saturating_add(1);
        self.layers = self.layers.saturating_add(usize::from(agreement.layers));
        self.splits = self.splits.saturating_add(usize::from(agreement.split));
        self.orders = self.orders.saturating_add(usize::from(agreement.order));
    }

    // Each count with what it counts, as they are printed.
    pub(crate) fn counts(self) -> [(usize, &'static str); 4] {
        [
            (self.netlists, "netlists"),
            (self.layers, "layers agree"),
            (self.splits, "splits agree"),
            (self.orders, "orders agree"),
        ]
    }
}

impl RunTally {
    pub(crate) fn add(&mut self, agreement: RunAgreement) {
        self.lists = self.lists.saturating_add(1);
        self.calls = self.calls.saturating_add(agreement.calls);
        let layers_agree = agreement.layers == Some(true);
        self.layers = self.layers.saturating_add(usize::from(layers_agree));
        self.answers = self.answers.saturating_add(agreement.answers);
        self.left = self.left.saturating_add(agreement.left);
        self.orders = self.orders.saturating_add(usize::from(agreement.order));
    }

    // Each count with what it counts, as they are printed.
    pub(crate) fn counts(self) -> [(usize, &'static str); 6] {
        [
            (self.lists, "lists"),
            (self.calls, "calls"),
            (self.layers, "layers agree"),
            (self.answers, "answers agree"),
            (self.left, "calls without room stay"),
            (self.orders, "orders agree"),
        ]
    }
}
