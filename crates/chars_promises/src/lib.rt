// What each call of crate `chars` must answer for a few inputs, all of it, as crate `items_promises` says it of the calls above. It is apart because an
// edit of must-fail/ costs by what its crate stands on, and this one stands on `chars` alone.
#![tactic(auto)]
