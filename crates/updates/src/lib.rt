// What the calls over thread records share: how one record's change completes a call. No code.
#![tactic(auto)]
