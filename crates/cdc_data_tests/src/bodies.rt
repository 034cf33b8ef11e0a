//! Bodies that tests decode.

/// The body of a ledger's first event: at timestamp 2000, account 1 is debited by 100 and account 2 is credited.
pub const FIRST: &str =
    "{\"credit_account\":{\"code\":10,\"credits_pending\":\"0\",\"credits_posted\":\"100\",\"debits_pending\":\"0\",\"debits_posted\":\"0\",\"flags\":0,\"id\":\"2\",\"timestamp\":\"1001\",\"user_data_128\":\"0\",\"user_data_32\":0,\"user_data_64\":\"0\"},\"debit_account\":{\"code\":10,\"credits_pending\":\"0\",\"credits_posted\":\"0\",\"debits_pending\":\"0\",\"debits_posted\":\"100\",\"flags\":0,\"id\":\"1\",\"timestamp\":\"1000\",\"user_data_128\":\"0\",\"user_data_32\":0,\"user_data_64\":\"0\"},\"ledger\":700,\"timestamp\":\"2000\",\"transfer\":{\"amount\":\"100\",\"code\":1,\"flags\":0,\"id\":\"1\",\"pending_id\":\"0\",\"timeout\":0,\"timestamp\":\"2000\",\"user_data_128\":\"0\",\"user_data_32\":0,\"user_data_64\":\"0\"},\"type\":\"single_phase\"}";
